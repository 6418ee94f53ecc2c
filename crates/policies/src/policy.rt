// A policy picks the object that is served next from the set of those that are ready.
ghost use Rattle.std.specs.Prelude.{◌≡◌, ℕ, ◌<◌, true, List, ◌≢◌};
ghost use Rattle.terms.specs.Sets.{member, bits_of};

use terms::object_set::ObjectSet;

// What a policy means: a memory, and what memory and set lead to. A set is a number below 256.
pub trait Policy {
    // the memory, as a list of whole numbers
    ghost memory: { Self → List ℕ };

    // the member that memory and set fix
    ghost choice: { List ℕ → ℕ → ℕ };

    // the memory afterwards
    ghost later: { List ℕ → ℕ → List ℕ };

    fn pick(&mut self, ready: ObjectSet) -> u8
        ensures member { result ≡ choice (memory self.old) (bits_of ready) }
        ensures memory { memory self.new ≡ later (memory self.old) (bits_of ready) };

    // a set that is not empty has its choice as a member
    ghost chosen: { (m : List ℕ) (s : ℕ) → s < 256 → (s ≢ 0) → member (choice m s) s ≡ true };

    // the empty set gives 0 and alters nothing
    ghost idle: { (m : List ℕ) → (choice m 0 ≡ 0) × (later m 0 ≡ m) };
}

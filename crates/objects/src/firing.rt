// A transition of a net fires: place by place.
ghost use Rattle.std.specs.Prelude.{◌≡◌};
ghost use Rattle.std.specs.Option.{option_map};
ghost use Rattle.terms.specs.Entries.{values};
ghost use Rattle.objects.specs.Nets.{at_place, place_after, fired};

use tables::net::Transition;
use terms::slots::Slots;

// The marks after a transition fired, if it is enabled.
#[tactic(auto, using(crate::proofs::Marks::after_more))]
pub(crate) fn fired(transition: &Transition, marks: &Slots<u8, 8>) -> Option<Slots<u8, 8>>
    ensures { option_map values result ≡ fired (values marks.now) transition.now }
{
    let mut after = Slots::new(0);
    // By number: three slots are read and one is written at each place, which a zip would not say more plainly.
    for place in 1usize..=8 {
        let take = at_place(&transition.takes, place);
        let give = at_place(&transition.gives, place);
        after.set(place, place_after(at_place(marks, place), take, give)?);
    }
    Some(after)
}

// The marks, takes or gives of a place.
fn at_place(numbers: &Slots<u8, 8>, place: usize) -> u8
    ensures { result ≡ at_place (values numbers.now) place }
{
    numbers.get(place).unwrap_or(0)
}

// The marks of a place after a take and a give, if it has the marks to take and room for those given.
fn place_after(marks: u8, take: u8, give: u8) -> Option<u8>
    ensures { result ≡ place_after marks take give }
{
    marks.checked_sub(take)?.checked_add(give)
}

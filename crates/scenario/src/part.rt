// The parts of a scenario file, in their order, and the letters of each.
ghost use Rattle.std.specs.Prelude.{◌≡◌};
ghost use Rattle.scenario.specs.Parts.{part_of, rank_of};

// A part comes before another where it is less.
#[derive(Clone, Copy, Debug, PartialEq, Eq, PartialOrd, Ord)]
pub enum Part {
    Setup,
    Tables,
    Script,
}

impl Part {
    // The part that a line's letter belongs to, if there is one; an error would say no more.
    #[tactic(auto, unfolding(crate::specs::Parts::setup_letter, crate::specs::Parts::table_letter, crate::specs::Parts::script_letter))]
    pub fn of_letter(letter: char) -> Option<Part>
        ensures { result ≡ part_of letter }
    {
        match letter {
            'P' | 'Q' | 'S' | 'W' => Some(Part::Setup),
            'D' | 'H' | 'I' | 'R' | 'F' | 'N' | 'T' | 'A' => Some(Part::Tables),
            'p' | 'f' | 'b' | 'r' | 'g' => Some(Part::Script),
            _ => None,
        }
    }

    // Where the part stands in a file.
    pub fn rank(self) -> u8
        ensures { result ≡ rank_of self }
    {
        match self {
            Part::Setup => 1,
            Part::Tables => 2,
            Part::Script => 3,
        }
    }
}

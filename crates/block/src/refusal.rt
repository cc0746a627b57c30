// What is turned down, by the numbers of documents 01 (1 to 11) and 02 in order.
ghost use Rattle.std.specs.Prelude.{◌≡◌};
ghost use Rattle.block.specs.Refusal.{number_of};

#[derive(Clone, Copy, PartialEq, Eq)]
pub enum Refusal {
    Length = 1,
    Sizes,
    State,
    Next,
    Row,
    Unused,
    Form,
    RowChoice,
    Position,
    WrongSide,
    Move,
    Reply,
    Charge,
}

// What a call answers: a value, or what it turns down. One that gives no value answers 0.
pub type Answer = Result<usize, Refusal>;

impl Refusal {
    // Its number.
    pub fn number(self) -> u8
        ensures { result ≡ number_of self }
    {
        self as u8
    }
}

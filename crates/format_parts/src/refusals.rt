// Why a call refuses: document 01's reasons by name, each with its number, and the place that goes with it.
// The checks go through their conditions by `require` and `require_none`, in 01's order, as the definitions of spec_rules do.
ghost use Rattle.std.specs.Prelude.{◌≡◌};
ghost use Rattle.spec_rules.specs.SheetRefusals.{require, require_none, accepted};
ghost use Rattle.spec_rules.specs.Found.{sought};
ghost use Rattle.format_parts.specs.Refusals.{number_of, verdict_of};

// In the order in which they are tried.
#[derive(Clone, Copy, PartialEq, Eq)]
pub enum Reason {
    Room = 1,
    Length = 2,
    Layout = 3,
    NoClause = 4,
    Count = 5,
    Types = 6,
    Transparent = 7,
    Shape = 8,
    Text = 9,
    Misfit = 10,
    NameTwice = 11,
    Nodes = 12,
    Bindings = 13,
    Idle = 14,
    PanelLength = 21,
    PanelLayout = 22,
    PanelShape = 23,
    PanelText = 24,
    PanelMisfit = 25,
    Tree = 31,
    Stuck = 32,
    NoText = 33,
}

impl Reason {
    // 01's number.
    pub fn number(self) -> u16
        ensures { result ≡ number_of self }
    {
        self as u16
    }
}

// The place is a clause, a pattern or a type, by the reason, and 0 where there is none.
#[derive(Clone, Copy, PartialEq, Eq)]
pub struct Refusal {
    pub reason: Reason,
    pub place: u16,
}

// The reason, unless the test holds.
pub fn require(test: bool, reason: Reason) -> Result<(), Refusal>
    ensures { verdict_of result ≡ require test (number_of reason) accepted }
{
    if test {
        Ok(())
    } else {
        Err(Refusal { reason, place: 0 })
    }
}

// The reason, where something was found: its place.
pub fn require_none(found: Option<u16>, reason: Reason) -> Result<(), Refusal>
    ensures { verdict_of result ≡ require_none (sought found) (number_of reason) accepted }
{
    match found {
        Some(place) => Err(Refusal { reason, place }),
        None => Ok(()),
    }
}

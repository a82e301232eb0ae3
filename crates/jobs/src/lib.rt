// Jobs: lists of orders, four words to an order. The definitions of their format, checks and counts, with their laws;
// the code stands in `job_order`, `job_check` and `job_leftover`. Here too: the conditions that turn a call down.
#![tactic(auto)]

ghost use Rattle.std.specs.Prelude.{◌≡◌};
ghost use Rattle.jobs.specs.Refusals.{number_of};

// Deals, words spoken by both hosts, and words used of A and of B.
#[derive(Clone, Copy, Debug, PartialEq, Eq)]
pub struct Counts {
    pub deals: u32,
    pub words: u32,
    pub a: u32,
    pub b: u32,
}

// What turns down a call that takes a job or a day, under document 01's numbers and those of R-3, R-6 and R-7.
#[derive(Clone, Copy, Debug, PartialEq, Eq)]
pub enum Condition {
    OtherHost = 1,
    IllSized = 2,
    UnknownKind = 3,
    UnknownRegister = 4,
    // An order's fourth word, or the table that a curve is lent.
    IllOperand = 5,
    ShortMasks = 6,
    ShortDeals = 7,
    NoPlace = 8,
    AtEnd = 9,
    IllDayList = 12,
    UnsoundCalendar = 16,
    NoQuarter = 17,
    OtherPlaces = 18,
}

impl Condition {
    pub fn number(self) -> u32
        ensures { result ≡ number_of self }
    {
        self as u32
    }
}

// The condition, and the order's index: 0 except for 3 to 5. Document 01 gives an index with every number.
#[derive(Clone, Copy, Debug, PartialEq, Eq)]
pub struct Refusal {
    pub condition: Condition,
    pub index: u32,
}

// "The order's index (0 except for 3 to 5)": of a condition that no order meets.
impl From<Condition> for Refusal {
    ghost from_gives = { λ condition refusal. refusal ≡ record { condition = condition; index = 0 } };

    fn from(condition: Condition) -> Refusal {
        Refusal {
            condition,
            index: 0,
        }
    }
}

// Where a call gives no index.
impl From<Refusal> for Condition {
    ghost from_gives = { λ refusal condition. condition ≡ refusal.condition };

    fn from(refusal: Refusal) -> Condition {
        refusal.condition
    }
}

// What the walk over a job's orders finds: the counts of the job, and of the orders before a place in it.
#[derive(Clone, Copy, Debug, PartialEq, Eq)]
pub struct Survey {
    pub whole: Counts,
    pub before: Counts,
}

// One of the two mask lists.
#[derive(Clone, Copy, Debug, PartialEq, Eq)]
pub enum Which {
    ListA,
    ListB,
}

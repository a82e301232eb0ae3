// The kinds of orders (document 01, "Orders").
ghost use Rattle.programs.specs.Kinds.{Decodes};

// What an order does; its number is the order's first word.
#[derive(Clone, Copy, Debug, PartialEq, Eq)]
pub enum Kind {
    Add = 0,
    Subtract = 1,
    AddConstant = 2,
    TimesConstant = 3,
    Product = 4,
    Refresh = 5,
    Slack = 6,
    OneBit = 7,
    Exact = 8,
    Relu = 9,
    Curve = 10,
}

// A word that is no kind's number.
#[derive(Clone, Copy, Debug, PartialEq, Eq)]
pub struct UnknownKind(pub u32);

impl TryFrom<u32> for Kind {
    type Error = UnknownKind;

    ghost try_from_gives = { Decodes };

    fn try_from(word: u32) -> Result<Self, UnknownKind> {
        match word {
            0 => Ok(Kind::Add),
            1 => Ok(Kind::Subtract),
            2 => Ok(Kind::AddConstant),
            3 => Ok(Kind::TimesConstant),
            4 => Ok(Kind::Product),
            5 => Ok(Kind::Refresh),
            6 => Ok(Kind::Slack),
            7 => Ok(Kind::OneBit),
            8 => Ok(Kind::Exact),
            9 => Ok(Kind::Relu),
            10 => Ok(Kind::Curve),
            _ => Err(UnknownKind(word)),
        }
    }
}

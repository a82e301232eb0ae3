// The gates of a program on shares: definitions and laws of what a gate writes on a lane, deals and speaks (the code:
// crates `gate_shape`, `gate_local`, `gate_deal`, `gate_speak`). A lane is a host's words of one kind, the masked
// values m or one of the masks: slots 0 to 15 are the registers, 16 to 23 the temporaries (document 01's kept words).
#![tactic(auto)]

ghost use Rattle.std.specs.Prelude.{◌≡◌};
ghost use Rattle.gates.specs.Codes.{op_of};

// What a gate does, by its number: the operations that each host does on its lanes alone, the deals of host 0 of a's
// masks L1 and L2 with the sum L, and the exchanges, at which hosts 1 and 2 speak.
#[derive(Clone, Copy, Debug, PartialEq, Eq)]
pub enum Op {
    Add = 0,
    Sub = 1,
    Xor = 2,
    // times a constant
    Scale = 3,
    // plus a constant, which enters m alone
    Plus = 4,
    // bits shifted up
    Up = 5,
    // one bit
    Bit = 6,
    Const = 7,
    // a known value of hosts 1 and 2: bits of a's m
    Public = 8,
    // floor(m / 2^n), m signed
    PublicSigned = 9,
    // bits of L
    DealSum = 10,
    // bits of -L
    DealNegated = 11,
    // floor(-L / 2^n), -L signed
    DealSigned = 12,
    // a bit's mask L1 xor L2, as a number (the definitions' OfBits)
    DealXor = 13,
    // -L, as a bit share
    DealBits = 14,
    // the product of two numbers
    Mul = 15,
    // the product of two bit words
    And = 16,
    Refresh = 17,
    // the product of two numbers, of which a is known
    MulKnown = 18,
    // the product of two bit words, of which a is known
    AndKnown = 19,
    // no gate: past the last one of a program, as every number from here on. No `Option` of a gate: walks ask below a
    // piece's end alone, and each would have to unwrap what `gate_at` gives.
    Past = 20,
}

// Total, so that a gate of any five numbers is read.
impl From<u32> for Op {
    ghost from_gives = { λ number op. op ≡ op_of number };

    #[tactic(auto, unfolding(crate::specs::Codes::op_of), using(crate::proofs::Codes::no_operation))]
    fn from(number: u32) -> Op {
        match number {
            0 => Op::Add,
            1 => Op::Sub,
            2 => Op::Xor,
            3 => Op::Scale,
            4 => Op::Plus,
            5 => Op::Up,
            6 => Op::Bit,
            7 => Op::Const,
            8 => Op::Public,
            9 => Op::PublicSigned,
            10 => Op::DealSum,
            11 => Op::DealNegated,
            12 => Op::DealSigned,
            13 => Op::DealXor,
            14 => Op::DealBits,
            15 => Op::Mul,
            16 => Op::And,
            17 => Op::Refresh,
            18 => Op::MulKnown,
            19 => Op::AndKnown,
            _ => Op::Past,
        }
    }
}

// A gate as five numbers of one size, copied at once: its operation's number, the target slot d, the source slots a
// and b, and a constant n. A part of a word has its first bit in n and its number of bits in b. The definitions read it
// as a gate (`read`). No enum in it, whose tag has padding behind it: that was measured, and a gate cost more to take
// apart.
#[derive(Clone, Copy, Debug, PartialEq, Eq)]
pub struct GateCode {
    pub op: u32,
    pub d: u32,
    pub a: u32,
    pub b: u32,
    pub n: u32,
}

// What a walk does at a gate: writes a slot on each lane alone, takes a deal, or exchanges words, with a deal at a
// product and without one at a refresh and at a product with a known value.
#[derive(Clone, Copy, Debug, PartialEq, Eq)]
pub enum Shape {
    Local,
    Dealing { d: u32 },
    Product { d: u32 },
    Undealt { d: u32 },
}

// Words used of A and of B, and deals.
#[derive(Clone, Copy, Debug, PartialEq, Eq)]
pub struct Used {
    pub a: usize,
    pub b: usize,
    pub deals: usize,
}

// Two lanes of a host: of host 0 its masks L1 and L2, of hosts 1 and 2 the masked values m and their own mask.
#[derive(Clone, Copy)]
pub struct Lanes {
    pub first: [u32; 24],
    pub second: [u32; 24],
}

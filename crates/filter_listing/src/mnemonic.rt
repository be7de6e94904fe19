//! The codes, with the mnemonic and the operand that stand for each.

ghost use Rattle.std.specs.Prelude.{◌≡◌};
ghost use Rattle.filter_listing.specs.Image as spec;

/// The mnemonics of a listing.
#[derive(Clone, Copy, Debug, PartialEq, Eq)]
pub(crate) enum Mnemonic {
    Ret,
    Ld,
    Ldh,
    Ldb,
    Ldx,
    Ldxb,
    St,
    Stx,
    Ja,
    Jgt,
    Jge,
    Jeq,
    Jset,
    Add,
    Sub,
    Mul,
    Div,
    Mod,
    And,
    Or,
    Xor,
    Lsh,
    Rsh,
    Neg,
    Tax,
    Txa,
}

/// What stands after a mnemonic.
#[derive(Clone, Copy, Debug, PartialEq, Eq)]
pub(crate) enum Operand {
    /// Nothing.
    Nothing,
    /// `x`.
    Index,
    /// `#pktlen`.
    PacketLength,
    /// `#N`.
    Number,
    /// `#0xN`.
    Hexadecimal,
    /// `[N]`.
    Absolute,
    /// `[x + N]`.
    Indexed,
    /// `M[N]`.
    Memory,
    /// `4*([N]&0xf)`.
    HeaderLength,
    /// The place to which a jump leads.
    Target,
}

/// What is printed for a code, if the code is printed as an instruction.
#[tactic(auto, unfolding(crate::specs::Image::row_of))]
pub(crate) fn row(code: u16) -> Option<(Mnemonic, Operand)>
    ensures { result ≡ spec.row_of code }
{
    match code {
        0x06 => Some((Mnemonic::Ret, Operand::Number)),
        0x16 => Some((Mnemonic::Ret, Operand::Nothing)),
        0x20 => Some((Mnemonic::Ld, Operand::Absolute)),
        0x28 => Some((Mnemonic::Ldh, Operand::Absolute)),
        0x30 => Some((Mnemonic::Ldb, Operand::Absolute)),
        0x80 => Some((Mnemonic::Ld, Operand::PacketLength)),
        0x40 => Some((Mnemonic::Ld, Operand::Indexed)),
        0x48 => Some((Mnemonic::Ldh, Operand::Indexed)),
        0x50 => Some((Mnemonic::Ldb, Operand::Indexed)),
        0x00 => Some((Mnemonic::Ld, Operand::Hexadecimal)),
        0x01 => Some((Mnemonic::Ldx, Operand::Hexadecimal)),
        0xb1 => Some((Mnemonic::Ldxb, Operand::HeaderLength)),
        0x60 => Some((Mnemonic::Ld, Operand::Memory)),
        0x61 => Some((Mnemonic::Ldx, Operand::Memory)),
        0x02 => Some((Mnemonic::St, Operand::Memory)),
        0x03 => Some((Mnemonic::Stx, Operand::Memory)),
        0x05 => Some((Mnemonic::Ja, Operand::Target)),
        0x25 => Some((Mnemonic::Jgt, Operand::Hexadecimal)),
        0x35 => Some((Mnemonic::Jge, Operand::Hexadecimal)),
        0x15 => Some((Mnemonic::Jeq, Operand::Hexadecimal)),
        0x45 => Some((Mnemonic::Jset, Operand::Hexadecimal)),
        0x2d => Some((Mnemonic::Jgt, Operand::Index)),
        0x3d => Some((Mnemonic::Jge, Operand::Index)),
        0x1d => Some((Mnemonic::Jeq, Operand::Index)),
        0x4d => Some((Mnemonic::Jset, Operand::Index)),
        0x0c => Some((Mnemonic::Add, Operand::Index)),
        0x1c => Some((Mnemonic::Sub, Operand::Index)),
        0x2c => Some((Mnemonic::Mul, Operand::Index)),
        0x3c => Some((Mnemonic::Div, Operand::Index)),
        0x9c => Some((Mnemonic::Mod, Operand::Index)),
        0x5c => Some((Mnemonic::And, Operand::Index)),
        0x4c => Some((Mnemonic::Or, Operand::Index)),
        0xac => Some((Mnemonic::Xor, Operand::Index)),
        0x6c => Some((Mnemonic::Lsh, Operand::Index)),
        0x7c => Some((Mnemonic::Rsh, Operand::Index)),
        0x04 => Some((Mnemonic::Add, Operand::Number)),
        0x14 => Some((Mnemonic::Sub, Operand::Number)),
        0x24 => Some((Mnemonic::Mul, Operand::Number)),
        0x34 => Some((Mnemonic::Div, Operand::Number)),
        0x94 => Some((Mnemonic::Mod, Operand::Number)),
        0x54 => Some((Mnemonic::And, Operand::Hexadecimal)),
        0x44 => Some((Mnemonic::Or, Operand::Hexadecimal)),
        0xa4 => Some((Mnemonic::Xor, Operand::Hexadecimal)),
        0x64 => Some((Mnemonic::Lsh, Operand::Number)),
        0x74 => Some((Mnemonic::Rsh, Operand::Number)),
        0x84 => Some((Mnemonic::Neg, Operand::Nothing)),
        0x07 => Some((Mnemonic::Tax, Operand::Nothing)),
        0x87 => Some((Mnemonic::Txa, Operand::Nothing)),
        _ => None,
    }
}

impl Mnemonic {
    /// Its word.
    pub(crate) fn word(self) -> &'static str
        ensures { result.now ≡ spec.word_of self }
    {
        match self {
            Mnemonic::Ret => "ret",
            Mnemonic::Ld => "ld",
            Mnemonic::Ldh => "ldh",
            Mnemonic::Ldb => "ldb",
            Mnemonic::Ldx => "ldx",
            Mnemonic::Ldxb => "ldxb",
            Mnemonic::St => "st",
            Mnemonic::Stx => "stx",
            Mnemonic::Ja => "ja",
            Mnemonic::Jgt => "jgt",
            Mnemonic::Jge => "jge",
            Mnemonic::Jeq => "jeq",
            Mnemonic::Jset => "jset",
            Mnemonic::Add => "add",
            Mnemonic::Sub => "sub",
            Mnemonic::Mul => "mul",
            Mnemonic::Div => "div",
            Mnemonic::Mod => "mod",
            Mnemonic::And => "and",
            Mnemonic::Or => "or",
            Mnemonic::Xor => "xor",
            Mnemonic::Lsh => "lsh",
            Mnemonic::Rsh => "rsh",
            Mnemonic::Neg => "neg",
            Mnemonic::Tax => "tax",
            Mnemonic::Txa => "txa",
        }
    }

    /// Whether it is that of a conditional jump.
    pub(crate) fn is_test(self) -> bool
        ensures { result ≡ spec.is_test self }
    {
        matches!(
            self,
            Mnemonic::Jgt | Mnemonic::Jge | Mnemonic::Jeq | Mnemonic::Jset
        )
    }
}

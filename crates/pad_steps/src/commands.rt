//! Commands, as applications submit them.
use key_source::Mask;
use pad_words::{Block, Direction, KeyName, Nibbles, Octets};

#[derive(Clone, Copy, Debug, PartialEq, Eq)]
pub enum EntryKind {
    Pin,
    Figures,
    Part,
}

#[derive(Clone, Copy, Debug, PartialEq, Eq)]
pub struct EntryRules {
    pub min: u8,
    pub max: u8,
    pub auto_end: bool,
    pub active: Mask,
    pub terminate: Mask,
}

#[derive(Clone, Copy, Debug, PartialEq, Eq)]
pub enum Verify {
    Nothing,
    Own,
    Zero,
}

#[derive(Clone, Copy, Debug, PartialEq, Eq)]
pub struct PartRules {
    pub count: u8,
    pub auto_end: bool,
    pub active: Mask,
    pub terminate: Mask,
    pub verify: Verify,
}

#[derive(Clone, Copy, Debug, PartialEq, Eq)]
pub enum Form {
    Iso0,
    Iso1,
    Iso2,
    Iso3,
    Iso4,
    Ibm3624,
    Diebold,
    DieboldCo,
}

#[derive(Drop)]
pub struct BlockRequest {
    pub form: Form,
    pub key: KeyName,
    pub second: Option<KeyName>,
    pub xor: Option<Block>,
    pub customer: Nibbles,
    pub pad: u8,
}

#[derive(Drop)]
pub struct CheckRequest {
    pub key: KeyName,
    pub validation: Nibbles,
    pub pad: u8,
    pub offset: Nibbles,
    pub count: u8,
    pub no_zero: bool,
    pub table: Nibbles,
}

#[derive(Drop)]
pub struct ExtraRequest {
    pub kind: u8,
    pub key: KeyName,
    pub body: Octets,
}

#[derive(Drop)]
pub enum PinRequest {
    Block(BlockRequest),
    Check(CheckRequest),
    Extra(ExtraRequest),
}

#[derive(Clone, Copy, Debug, PartialEq, Eq)]
pub enum Algorithm {
    Ecb,
    Cbc,
    Cfb,
    Mac,
    Retail,
}

#[derive(Drop)]
pub enum Start {
    Zero,
    Clear(Block),
    Sealed(KeyName, Block),
}

#[derive(Drop)]
pub struct CryptRequest {
    pub algorithm: Algorithm,
    pub direction: Direction,
    pub key: KeyName,
    pub start: Start,
    pub pad: u8,
    pub body: Octets,
}

#[derive(Drop)]
pub enum ImportSource {
    Clear(Octets),
    Sealed(KeyName, Octets),
    Part,
}

#[derive(Drop)]
pub struct ImportRequest {
    pub name: KeyName,
    pub source: ImportSource,
    pub uses: u16,
    pub verify: Verify,
}

#[derive(Drop)]
pub enum Command {
    GetPin(EntryRules),
    GetData(EntryRules),
    SecureKeyEntry(PartRules),
    MaintainPin(bool),
    Pin(PinRequest),
    Crypt(CryptRequest),
    ImportKey(ImportRequest),
    DeleteKey(KeyName),
    Init,
    Reset,
    RsaImport,
}

// A message's parts, each as it stands in the standard.
mod derived;

use scroll_layouts::Items;

/// A message (section 4.1). Its numbers are in network order.
// #[derive(Pread, Pwrite)]
// #[scroll(order = BE)]
#[derive(Clone, Copy)]
pub struct Message<'a> {
    pub header: Header,
    // #[scroll(ctx = Count(header.questions as usize))]
    pub questions: Items<'a, Questions>,
    /// The answers, and behind them those of authorities and the additional ones.
    // #[scroll(ctx = Count(header.answers as usize + header.authorities as usize + header.additionals as usize))]
    pub records: Items<'a, Resources>,
}

/// The header (section 4.1.1): an identifier, bits, and how many questions and records follow.
// #[derive(Part)]
#[derive(Clone, Copy)]
pub struct Header {
    pub id: u16,
    // #[scroll(bits = 1)]
    pub is_response: u16,
    // #[scroll(bits = 4)]
    pub operation: u16,
    // #[scroll(bits = 1)]
    pub is_authoritative: u16,
    // #[scroll(bits = 1)]
    pub is_truncated: u16,
    // #[scroll(bits = 1)]
    pub wants_recursion: u16,
    // #[scroll(bits = 1)]
    pub has_recursion: u16,
    // #[scroll(bits = 3)]
    pub reserved: u16,
    /// 0 for no error, 3 for a name that doesn't exist.
    // #[scroll(bits = 4)]
    pub code: u16,
    pub questions: u16,
    pub answers: u16,
    pub authorities: u16,
    pub additionals: u16,
}

/// A name (sections 3.1 and 4.1.4): labels, and a zero, or a pointer to where the name goes on.
// #[derive(Part)]
#[derive(Clone, Copy)]
pub struct Name<'a> {
    // #[scroll(ctx = ToMark)]
    pub labels: Items<'a, Labels>,
}

/// Names the list of a name's labels.
// #[derive(Pread, Pwrite)]
// #[scroll(items = Label, ends = NameEnd)]
#[derive(Clone, Copy)]
pub struct Labels;

/// A label.
// #[derive(Part)]
#[derive(Clone, Copy)]
pub struct Label<'a> {
    // #[scroll(check = len < 64)]
    pub len: u8,
    // #[scroll(ctx = len as usize)]
    pub text: &'a [u8],
}

/// Names the list of questions.
// #[derive(Pread, Pwrite)]
// #[scroll(items = Question)]
#[derive(Clone, Copy)]
pub struct Questions;

/// A question (section 4.1.2).
// #[derive(Pread, Pwrite)]
#[derive(Clone, Copy)]
pub struct Question<'a> {
    pub name: Name<'a>,
    pub kind: u16,
    pub class: u16,
}

/// Names a list of records.
// #[derive(Pread, Pwrite)]
// #[scroll(items = Resource)]
#[derive(Clone, Copy)]
pub struct Resources;

/// A resource record (section 4.1.3).
// #[derive(Pread, Pwrite)]
#[derive(Clone, Copy)]
pub struct Resource<'a> {
    pub name: Name<'a>,
    pub kind: u16,
    pub class: u16,
    /// How many seconds it may be kept.
    pub time: u32,
    pub len: u16,
    // #[scroll(ctx = (kind, len as usize))]
    pub data: Data<'a>,
}

/// The data of a record, by its kind (sections 3.3 and 3.4; RFC 3596).
// #[derive(Part)]
// #[scroll(given = (kind: u16, len: usize))]
#[derive(Clone, Copy)]
pub enum Data<'a> {
    // #[scroll(is = 1, within = len)]
    Address(Address),
    // #[scroll(is = 2, within = len)]
    Server(Name<'a>),
    // #[scroll(is = 5, within = len)]
    Alias(Name<'a>),
    // #[scroll(is = 12, within = len)]
    Pointer(Name<'a>),
    // #[scroll(is = 15, within = len)]
    Mail(Mail<'a>),
    // #[scroll(is = 16, ctx = len)]
    Texts(Items<'a, Texts>),
    // #[scroll(is = 28, within = len)]
    LongAddress(LongAddress),
    // #[scroll(is = _, ctx = len)]
    Other(&'a [u8]),
}

/// An address of IPv4.
// #[derive(Pread, Pwrite)]
#[derive(Clone, Copy)]
pub struct Address {
    pub bytes: [u8; 4],
}

/// An address of IPv6.
// #[derive(Pread, Pwrite)]
#[derive(Clone, Copy)]
pub struct LongAddress {
    pub bytes: [u8; 16],
}

/// A server that takes mail (section 3.3.9): the one with the least preference first.
// #[derive(Part)]
#[derive(Clone, Copy)]
pub struct Mail<'a> {
    pub preference: u16,
    pub server: Name<'a>,
}

/// Names the list of texts.
// #[derive(Pread, Pwrite)]
// #[scroll(items = Text)]
#[derive(Clone, Copy)]
pub struct Texts;

/// A text (section 3.3), which need not be UTF-8.
// #[derive(Part)]
#[derive(Clone, Copy)]
pub struct Text<'a> {
    pub len: u8,
    // #[scroll(ctx = len as usize)]
    pub text: &'a [u8],
}

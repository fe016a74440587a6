//! Laws of the definitions that the contracts use, for whoever builds a format on them: each is the
//! contract of a function that changes nothing, and its proof is the function's. To cite a law in a
//! proof, call its function. All bodies are empty, except that of
//! [`size_is_that_of_reads_and_writes`], which returns the sizes that its law speaks of.
//!
//! - **Readers of records**: a record may be read from a longer buffer than it was tested on, and
//!   no read ends more than a byte past the buffer ([`fixed_size_is_kept`],
//!   [`reads_keep_their_laws`]).
//! - **Writers of fixed headers**: fields may be written in any order
//!   ([`writes_apart_may_be_exchanged`]), what was written is unchanged until it is overwritten
//!   ([`what_was_written_stands`]) and reads back ([`fixed_size_is_kept`]), and its size is known
//!   before there is a value ([`size_is_that_of_reads_and_writes`]).
//! - **Tests**: one call at an offset says what every other call there returns
//!   ([`reads_keep_their_laws`]).
//! - **Types of your own**: a struct that is a `Record` has the laws of `Fixed`. For other types
//!   the lemmas of `OwnTypes` say the same of every relation, which a clause can't quantify over.
//!
//! Errors are compared by `SameError`: the message of a `BadInput` by its bytes, and not by its
//! address. A value that borrows, such as a `&str`, has an address too, which the relations leave
//! open: the laws speak of its bytes.

mod fixed;
mod histories;
mod leb128;
mod numbers;
mod reads;
mod texts;

pub use self::fixed::{
    fixed_size_is_kept, fixed_size_is_kept as law_2, fixed_size_is_written_back,
    size_is_that_of_reads_and_writes, size_is_that_of_reads_and_writes as law_11,
};
pub use self::histories::{
    array_has_leaves, run_refuses_plainly, what_was_written_stands,
    what_was_written_stands as law_3, write_is_of_its_leaves, writes_apart_may_be_exchanged,
    writes_apart_may_be_exchanged as law_6, writes_have_leaves,
};
pub use self::leb128::{
    leb128_reads_have_one_to_ten_bytes, leb128_reads_have_one_to_ten_bytes as law_8,
    signed_reads_are_encodings, signed_reads_are_encodings as law_spelling_s,
    signed_texts_are_kept, unsigned_reads_are_encodings,
    unsigned_reads_are_encodings as law_spelling_u, unsigned_texts_are_kept,
};
pub use self::numbers::{
    big_endian_is_little_endian_reversed, big_endian_is_little_endian_reversed as law_1,
    constants_have_their_values, float_is_written_back,
};
pub use self::reads::{
    array_depends_on_its_bytes, arrays_keep_their_laws, reads_keep_their_laws,
    reads_keep_their_laws as law_4, reads_keep_their_laws as law_5,
    reads_keep_their_laws as law_10,
};
pub use self::texts::{
    c_string_has_one_zero, c_string_has_one_zero as law_9, required_text_is_within_its_source,
    required_text_is_within_its_source as law_required,
};

//! The numbers that an end of a recorded connection chose.

ghost use Rattle.std.specs.Prelude.{◌≡◌, ◌≤◌, length};
ghost use Rattle.ua_judge.specs.Names.{rank, is_known};

use ua_services::RequestKind;

/// A number that an end chose: a TokenId of the server, or a RequestId of the client.
#[derive(Clone, Copy, Debug)]
pub struct Named {
    pub number: u32,
    /// How many bytes the other side had sent by then.
    pub place: usize,
    /// Whether an OPN brought it.
    pub opens: bool,
    /// The kind of the request that has it, where that is known.
    pub kind: Option<RequestKind>,
}

/// Whether this is the name of a number that stands before a place.
fn is_known(name: &Named, number: u32, end: usize) -> bool
    ensures { result ≡ is_known number end name.now }
{
    name.number == number && name.place < end
}

/// Which of the names a number is that stands before a place: the last one of this number, counted
/// from 1; 0 where there is none.
pub(crate) fn rank_of(names: &[Named], number: u32, end: usize) -> usize
    ensures within { result ≤ length names.now }
    ensures rank { result ≡ rank (is_known number end) names.now }
{
    let mut at = names.len();
    while at > 0 {
        if is_known(&names[at - 1], number, end) {
            return at;
        }
        at -= 1;
    }
    0
}

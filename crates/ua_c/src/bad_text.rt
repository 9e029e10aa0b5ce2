//! Which text of a call is none.

ghost use Rattle.std.specs.Prelude.{◌≡◌};
ghost use Rattle.ua_c.specs.BadText.{bad_whole_text};

/// Which of the texts of a call is none, with the status that says so or that an allocation failed
/// over it, and of several lines the place of the line from 0.
#[derive(Clone, Copy, Debug)]
pub struct BadText {
    pub status: u32,
    pub text: u32,
    pub index: usize,
}

impl BadText {
    /// A text that is no list of lines.
    pub(crate) fn only(text: u32, status: u32) -> BadText
        ensures { result ≡ bad_whole_text text status }
    {
        BadText {
            status,
            text,
            index: 0,
        }
    }
}

//! The styles of lines.

ghost use Rattle.std.specs.Prelude.{◌≡◌};
ghost use Rattle.ua_answers.specs.Styles.{exact, plain, plain_endpoints};

/// The style of the lines of results.
#[derive(Clone, Copy, PartialEq, Eq, Debug)]
pub struct LineStyle {
    /// Whether the standard's names follow StatusCodes.
    pub names: bool,
    /// Whether the timestamps of Read results follow their values.
    pub times: bool,
    /// Whether each line is a JSON object.
    pub json: bool,
}

impl LineStyle {
    /// Lines of fields separated by spaces, without timestamps.
    pub fn plain(names: bool) -> LineStyle
        ensures { result ≡ plain names }
    {
        LineStyle {
            names,
            times: false,
            json: false,
        }
    }
}

/// The style of Read results.
#[derive(Clone, Copy, PartialEq, Eq, Debug)]
pub struct AnswerStyle {
    /// The style of their lines.
    pub lines: LineStyle,
    /// Whether values and timestamps are in the human-readable form.
    pub plain: bool,
}

impl AnswerStyle {
    /// Lines of this style, with values by their bit patterns and timestamps by their ticks.
    pub fn exact(lines: LineStyle) -> AnswerStyle
        ensures { result ≡ exact lines }
    {
        AnswerStyle {
            lines,
            plain: false,
        }
    }
}

/// The style of the lines of endpoints.
#[derive(Clone, Copy, PartialEq, Eq, Debug)]
pub struct EndpointStyle {
    /// Whether the token policies of each endpoint follow it.
    pub policies: bool,
    /// Whether each line is a JSON object.
    pub json: bool,
}

impl EndpointStyle {
    /// Lines of fields separated by spaces, without token policies.
    pub fn plain() -> EndpointStyle
        ensures { result ≡ plain_endpoints }
    {
        EndpointStyle {
            policies: false,
            json: false,
        }
    }
}

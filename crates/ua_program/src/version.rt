//! The version of the program.

ghost use Rattle.std.specs.Prelude.{◌≡◌};
ghost use Rattle.ua_program.specs.Printed.{version_line as line_of_version};

/// The name, the version, and the kit that the version was proved with, as `rt version` prints it.
pub(crate) fn version_line() -> &'static str
    ensures { result.now ≡ line_of_version }
{
    "ua 0.1.0 rattle-kit-13f logic dac8208d650f15bf\n"
}

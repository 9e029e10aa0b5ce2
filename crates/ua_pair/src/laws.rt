//! Laws of the dissector's output, each the contract of a function that does nothing.

ghost use Rattle.std.specs.Prelude.{◌≡◌, ◌<◌, ℕ, List, length, true, false};
ghost use Rattle.ua_pair.specs.declared.options.DissectOptions.{DissectOptions};
ghost use Rattle.ua_fields.specs.declared.body.BodyKind.{BodyKind};
ghost use Rattle.ua_pair.specs.Dissected.{AreLines};
ghost use Rattle.ua_pair.specs.Lines.{left_out};
ghost use Rattle.ua_pair.specs.Told.{field_lines_of};

/// The output is determined by the bytes, the side that sent them and the options, unless fields
/// are as people write them: then a Float or Double may be any decimal that reads back as it.
pub fn one_reading()
    ensures { (options : DissectOptions) (octets lines others : List ℕ) → options.plain ≡ false
        → AreLines options octets lines → AreLines options octets others → lines ≡ others }
{}

/// The fields of a body that has more bytes than are wanted are left out: one line stands in their
/// place.
#[tactic(auto, using(crate::proofs::PendingLines::large_left_out))]
pub fn large_bodies_are_left_out()
    ensures { (options : DissectOptions) (kind : BodyKind) (octets : List ℕ) → options.fields ≡ true
        → options.largest < length octets → field_lines_of options kind octets ≡ left_out options.largest }
{}

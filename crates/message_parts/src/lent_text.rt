//! A text that is lent from the payload in which it stands.

ghost use Rattle.std.specs.Prelude.{◌≡◌, true};

use exi_bits::BitSpan;

/// A text that is lent from a payload.
#[derive(Drop)]
pub struct LentText<'a> {
    pub(crate) span: BitSpan<'a>,
    pub(crate) ghost text: { span.is_text ≡ true },
}

impl<'a> LentText<'a> {
    /// The text as it stands in the payload.
    pub fn span(&self) -> &BitSpan<'a>
        ensures span { result.now ≡ self.now.span }
        ensures text { result.now.is_text ≡ true }
    {
        &self.span
    }
}

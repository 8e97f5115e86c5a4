// Rule 10: a position table is empty or checks. That it lies in the text was tested before (rule 2).
ghost use Rattle.std.specs.Prelude.{◌≡◌, ◌+◌, ◌≤◌, length};
ghost use Rattle.model.specs.Rules as definition;

use grammar::Span;

pub fn sound_table(text: &[u8], span: Span) -> bool
    requires { span.start + span.size ≤ length text.now }
    ensures { result ≡ definition.sound_table text.now span }
{
    if span.size == 0 {
        return true;
    }
    pos::check_long(&text[span.start..span.start + span.size]).is_ok()
}

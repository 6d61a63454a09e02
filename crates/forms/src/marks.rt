// Marks of an answer form, as numbers to reckon with.
ghost use Rattle.std.specs.Prelude.{◌≡◌, ◌+◌, ◌≤◌, length};
ghost use Rattle.std.proofs.Math.IntN.{sub_ℕ};
ghost use Rattle.forms.specs.Limits.{mark_limit};
ghost use Rattle.forms.specs.AnswerForm.{signed32, mark_part_length, in_mark_at, out_mark_at};
ghost use Rattle.forms.specs.AnswerFaults.{mark_fault};

use crate::Answer;
use crate::fields::{in_mark_at, mark_bits, out_mark_at};

// A mark in range with the limit added, which makes it a number that is not below 0.
fn mark_plus(t: &[u8], at: usize) -> usize
    requires { (at + mark_part_length ≤ length t.now) × (mark_fault t.now at ≡ 0) }
    ensures { (signed32 t.now at ≡ sub_ℕ result mark_limit) × (result ≤ 4000000000) }
{
    let x = mark_bits(t, at);
    if x <= Answer::MARK_LIMIT {
        return x + Answer::MARK_LIMIT;
    }
    x - (4_294_967_296 - Answer::MARK_LIMIT)
}

// The in-mark of vertex v with the limit added.
// Kept: the new form is no plainer: eight calls would say `mark_plus(t, in_mark_at(s, v))` for `in_mark_plus(s, t, v)`, and each would prove again where the mark lies.
pub fn in_mark_plus(s: &[u8], t: &[u8], v: usize) -> usize
    requires { (in_mark_at s.now v + mark_part_length ≤ length t.now) × (mark_fault t.now (in_mark_at s.now v) ≡ 0) }
    ensures { (signed32 t.now (in_mark_at s.now v) ≡ sub_ℕ result mark_limit) × (result ≤ 4000000000) }
{
    mark_plus(t, in_mark_at(s, v))
}

// The out-mark of vertex v with the limit added.
pub fn out_mark_plus(s: &[u8], t: &[u8], v: usize) -> usize
    requires { (out_mark_at s.now v + mark_part_length ≤ length t.now) × (mark_fault t.now (out_mark_at s.now v) ≡ 0) }
    ensures { (signed32 t.now (out_mark_at s.now v) ≡ sub_ℕ result mark_limit) × (result ≤ 4000000000) }
{
    mark_plus(t, out_mark_at(s, v))
}

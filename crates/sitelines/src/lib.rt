// The lines that are printed of a site's calls.
#![tactic(auto)]

ghost use Rattle.std.specs.Prelude.{◌≡◌, IfOk, string_bytes};
ghost use Rattle.script.specs.Texts.{bad_word_text};
ghost use Rattle.sitelines.specs.CallTexts.{line_text, make_text};

use plans::Plan;
use protocol::answer::Answer;
use protocol::call::Call;
use protocol::refusal::Refusal;
use script::BadWord;
use std::alloc::{AllocError, Global};

// The call with its names and parts, and then its answer or the number of its refusal.
pub fn call_line(
    heap: Global,
    call: &Call<Plan>,
    answer: &Answer<Plan>,
) -> Result<String, AllocError>
    ensures { IfOk result (λ s. string_bytes s ≡ line_text call.now answer.now) }
{
    format!(in heap; "{call} {answer}")
}

// Whether the site was made, or the number of the refusal.
pub fn make_line<S>(heap: Global, made: &Result<S, Refusal>) -> Result<String, AllocError>
    ensures { IfOk result (λ s. string_bytes s ≡ make_text made.now) }
{
    match made {
        Ok(_) => String::from_str(heap, "make = ok"),
        Err(why) => format!(in heap; "make ! {why}"),
    }
}

// The index of a word that is missing, short or wrong.
pub fn bad_word_line(heap: Global, index: usize) -> Result<String, AllocError>
    ensures { IfOk result (λ s. string_bytes s ≡ bad_word_text index) }
{
    let bad = BadWord { index };
    format!(in heap; "{bad}")
}

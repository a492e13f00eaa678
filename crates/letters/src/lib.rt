// What can be lit of a question: document 02, CR 3. A character may have several bytes, and the highlight does not end between them.
#![tactic(auto)]

ghost use Rattle.std.specs.Prelude.{◌≡◌};
ghost use Rattle.answers.specs.Lit.{in_character, lit};

// Whether a byte goes on with a character: 128 to 191.
fn in_character(x: u8) -> bool
    ensures { result ≡ in_character x }
{
    matches!(x, 128..=191)
}

// The greatest place, not above a count, where the lit part of a question may end. From the count it goes back over the bytes that go on
// with a character, and no further; all of the question is lit where all of it is counted.
pub fn lit_part(question: &[u8], count: usize) -> usize
    ensures { result ≡ lit question.now count }
{
    if question.len() <= count {
        return question.len();
    }
    for place in (1..=count).rev() {
        if !in_character(question[place]) {
            return place;
        }
    }
    0
}

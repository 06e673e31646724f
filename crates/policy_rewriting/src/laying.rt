// Words laid into a lent area as far as it goes: into one of no words nothing is laid, so that the same walk measures.
ghost use Rattle.std.specs.Prelude.{◌+◌, ◌≤◌, ◌≡◌, [], ◌∷◌, length};
ghost use Rattle.policy_rewriting.specs.Laid.{laid};

// One word, unless the area ends before it.
#[tactic(auto, using(crate::proofs::Laid::laid_set, crate::proofs::Laid::laid_past))]
pub fn lay(area: &mut [u32], to: usize, word: u32)
    ensures { area.new ≡ laid to (word ∷ []) area.old }
{
    if to < area.len() {
        area[to] = word;
    }
}

// These words; the place after them in the area.
pub fn lay_words(area: &mut [u32], to: usize, words: &[u32]) -> usize
    requires { to + length words.now ≤ 65536 }
    ensures { (result ≡ to + length words.now) × (area.new ≡ laid to words.now area.old) }
{
    for (i, word) in words.iter().enumerate() {
        lay(area, to + i, *word);
    }
    to + words.len()
}

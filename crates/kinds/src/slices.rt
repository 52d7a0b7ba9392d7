ghost use Rattle.std.specs.Prelude.{◌≡◌, ◌+◌, ◌≤◌, length};
ghost use Rattle.std.proofs.lemmas.List.Edits.{sets};
ghost use Rattle.kinds.specs.Lists.{same};

// Whether two slices hold the same words.
pub fn equal(a: &[u16], b: &[u16]) -> bool
    ensures { result ≡ same a.now b.now }
{
    a == b
}

// Copies `words` into `out` from index `at` on; what stands before and after them stays.
pub fn copy(out: &mut [u16], at: usize, words: &[u16])
    requires { at + length words.now ≤ length out.old }
    ensures { out.new ≡ sets out.old at words.now }
{
    out[at..at + words.len()].copy_from_slice(words);
}

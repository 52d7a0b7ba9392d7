ghost use Rattle.std.specs.Prelude.{◌≡◌, [], ◌∷◌, ◌+◌, ◌*◌, ◌≤◌, length};
ghost use Rattle.std.proofs.lemmas.List.Edits.{sets};
ghost use Rattle.folio.specs.Files.{bytes_of, trailer};

// Each of these stores from an index on, and answers the index behind what it stored.
pub fn put_bytes(bytes: &[u8], file: &mut [u8], at: usize) -> usize
    requires { at + length bytes.now ≤ length file.old }
    ensures file_after { file.new ≡ sets file.old at bytes.now }
    ensures value { result ≡ at + length bytes.now }
{
    let end = at + bytes.len();
    file[at..end].copy_from_slice(bytes);
    end
}

pub fn put_words(words: &[u16], file: &mut [u8], at: usize) -> usize
    requires { at + 2 * length words.now ≤ length file.old }
    ensures file_after { file.new ≡ sets file.old at (bytes_of words.now) }
    ensures value { result ≡ at + 2 * length words.now }
{
    let mut here = at;
    for word in words {
        here = put_word(*word, file, here);
    }
    here
}

fn put_word(word: u16, file: &mut [u8], at: usize) -> usize
    requires { at + 2 ≤ length file.old }
    ensures file_after { file.new ≡ sets file.old at (bytes_of (word ∷ [])) }
    ensures value { result ≡ at + 2 }
{
    // Byte by byte: the edit `high_byte_first` writes here.
    let [low, high] = word.to_le_bytes();
    put_bytes(&[low, high], file, at)
}

// The distances back to symbols, shapes and score, and the end bytes.
pub fn put_trailer(symbols: u16, shapes: u16, score: u16, file: &mut [u8], at: usize) -> usize
    requires { at + 8 ≤ length file.old }
    ensures file_after { file.new ≡ sets file.old at (trailer symbols shapes score) }
    ensures value { result ≡ at + 8 }
{
    let second = put_word(symbols, file, at);
    let third = put_word(shapes, file, second);
    let end = put_word(score, file, third);
    put_bytes(b"SC", file, end)
}

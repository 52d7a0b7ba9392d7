ghost use Rattle.std.specs.Prelude.{◌≡◌, ◌+◌, ◌*◌, ◌-◌, ◌<◌, ◌≤◌, length};
ghost use Rattle.std.proofs.lemmas.List.Edits.{sets};
ghost use Rattle.report.specs.Paths.{child_of, path_of};
ghost use Rattle.report.specs.Text.{digits_to, field, states_field, path_text, step_of, path_in, numbers_in};

use kinds::limits::{MOST_CHILDREN, NUMBER_DIGITS, PATH_NUMBERS};

// The number and the node of the child of `at`, one of the first four, in whose subtree x stands; each child lies inside its parent's span.
fn find_child(spans: &[u16], x: usize, at: usize) -> Option<(u16, usize)>
    ensures { step_of result ≡ child_of spans.now x at }
{
    if spans.len() <= at {
        return None;
    }
    let end = at + spans[at] as usize;
    let mut here = at + 1;
    for k in 1..=u16::from(MOST_CHILDREN) {
        if spans.len() <= here {
            return None;
        }
        let size = spans[here] as usize;
        if size == 0 {
            return None;
        }
        let e = here + size;
        if end < e {
            return None;
        }
        if x < e {
            return Some((k, here));
        }
        here = e;
    }
    None
}

// The child numbers from the root to node x into `out`; answers how many, or that there is no such node.
pub fn put_path(spans: &[u16], x: usize, out: &mut [u16]) -> Option<usize>
    requires { 64 ≤ length out.old }
    ensures path { path_in result out.new ≡ path_of spans.now x }
    ensures few { numbers_in result ≤ 64 }
{
    if spans.len() <= x {
        return None;
    }
    let mut at: usize = 0;
    for d in 0..PATH_NUMBERS {
        if at == x {
            return Some(d);
        }
        match find_child(spans, x, at) {
            None => {
                return None;
            }
            Some((i, c)) => {
                out[d] = i;
                at = c;
            }
        }
    }
    if at == x {
        return Some(PATH_NUMBERS);
    }
    None
}

// The decimal digits of n, at most `left` of them, from `at` on; answers the place after them.
pub fn put_digits(n: usize, left: usize, out: &mut [u8], at: usize) -> usize
    requires { at + left ≤ length out.old }
    ensures count { result ≡ at + length (digits_to left n) }
    ensures buffer { out.new ≡ sets out.old at (digits_to left n) }
    ensures few { result ≤ at + left }
{
    if left == 0 {
        return at;
    }
    if n < 10 {
        out[at] = (48 + n) as u8;
        return at + 1;
    }
    let e = put_digits(n / 10, left - 1, out, at);
    out[e] = (48 + n % 10) as u8;
    e + 1
}

// A text from `at` on; answers the place after it.
pub fn put_text(text: &[u8], out: &mut [u8], at: usize) -> usize
    requires { at + length text.now ≤ length out.old }
    ensures count { result ≡ at + length text.now }
    ensures buffer { out.new ≡ sets out.old at text.now }
{
    let end = at + text.len();
    out[at..end].copy_from_slice(text);
    end
}

// A text and a number behind it, from `at` on; answers the place after them.
pub fn put_field(text: &[u8], n: usize, out: &mut [u8], at: usize) -> usize
    requires { at + (length text.now + 20) ≤ length out.old }
    ensures count { result ≡ at + length (field text.now n) }
    ensures buffer { out.new ≡ sets out.old at (field text.now n) }
    ensures few { result ≤ at + (length text.now + 20) }
{
    let here = put_text(text, out, at);
    put_digits(n, NUMBER_DIGITS, out, here)
}

// How many states there are, or `-`, behind their name.
pub fn put_states(states: Option<usize>, out: &mut [u8], at: usize) -> usize
    requires { at + 28 ≤ length out.old }
    ensures count { result ≡ at + length (states_field states) }
    ensures buffer { out.new ≡ sets out.old at (states_field states) }
    ensures few { result ≤ at + 28 }
{
    match states {
        Some(n) => put_field(b" states ", n, out, at),
        None => put_text(b" states -", out, at),
    }
}

// Child numbers with dots between them, the root as `-`, from `at` on; answers the place after them.
pub fn put_dotted(path: &[u16], out: &mut [u8], at: usize) -> usize
    requires { at + (21 * length path.now + 1) ≤ length out.old }
    ensures count { result ≡ at + length (path_text path.now) }
    ensures buffer { out.new ≡ sets out.old at (path_text path.now) }
    ensures few { result ≤ at + (21 * length path.now + 1) }
{
    let Some((first, rest)) = path.split_first() else {
        return put_text(b"-", out, at);
    };
    let mut here = put_digits(*first as usize, NUMBER_DIGITS, out, at);
    for number in rest {
        out[here] = b'.';
        here = put_digits(*number as usize, NUMBER_DIGITS, out, here + 1);
    }
    here
}

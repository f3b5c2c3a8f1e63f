// The list program: reads a bid text from standard input and writes its list to standard output. A program has no exit
// status, so what cannot be read or written is told on standard error. To fill the buffers of the longest text takes longer
// than to list a short one, so a short text has smaller ones.
#![tactic(auto)]

ghost use Rattle.std.specs.Prelude.{◌≤◌, length, IfOk};

use std::io::Read;

// Standard output and standard error.
const STDOUT_FILENO: i32 = 1;

const STDERR_FILENO: i32 = 2;

// Reads from the place `from` on until the input ends or the buffer is full. Answers how many bytes stand in the buffer.
fn read_on<R: Read>(input: &mut R, buf: &mut [u8], from: usize) -> std::io::Result<usize>
    requires { from ≤ length buf.old }
    ensures { IfOk result (λ n. n ≤ length buf.new) }
{
    let mut n = from;
    // A while: how far a read goes on is the input's to say.
    while n < buf.len() {
        let more = input.read(&mut buf[n..])?;
        if more == 0 {
            return Ok(n);
        }
        n += more;
    }
    Ok(n)
}

fn tell_unread() {
    io::write_all(STDERR_FILENO, b"list: standard input cannot be read\n");
}

fn write_list(list: &[u8]) {
    if !io::write_all(STDOUT_FILENO, list) {
        io::write_all(STDERR_FILENO, b"list: standard output cannot be written\n");
    }
}

// Lists a text that begins so and of which more is to be read. The buffer holds one byte more than a readable text may
// have, so that a longer one is seen to be too long; the list is made in the text's place.
fn list_long<R: Read>(input: &mut R, first: &[u8])
    requires { length first.now ≤ 65537 }
{
    let mut buf = [0u8; 65537];
    let begun = first.len();
    buf[..begun].copy_from_slice(first);
    match read_on(input, &mut buf, begun) {
        Ok(n) => {
            let k = listing_made::make_in(&mut buf, n);
            // The buffer always suffices: refusal 13 is ruled out here.
            check::expect(0 < k);
            write_list(&buf[..k]);
        }
        Err(_) => tell_unread(),
    }
}

// A text that ends within the first buffer has so few bids that their list fits the second: refusal 13 is ruled out.
fn main(rt: HostRuntime) {
    let mut input = rt.stdin();
    let mut text = [0u8; 6656];
    match read_on(&mut input, &mut text, 0) {
        Ok(n) => {
            if n < text.len() {
                let mut list = [0u8; 20480];
                let k = listing_made::make(&text[..n], &mut list);
                check::expect(0 < k);
                write_list(&list[..k]);
            } else {
                list_long(&mut input, &text);
            }
        }
        Err(_) => tell_unread(),
    }
}

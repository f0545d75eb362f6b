// What several programs share: reading an input into a buffer that is lent, hex digits, and long arrays.
#![tactic(auto)]

ghost use Rattle.std.specs.Prelude.{◌≡◌, ◌<◌, ◌≤◌, ℕ, All, IfOk, OnErr, length, take};
ghost use Rattle.std.specs.Io.{ReadsAtMost};
ghost use Rattle.std.specs.Io.KnownBytes.{Consumes, IsAtEnd};
ghost use Rattle.support.specs.Hex.{hex_value};

use std::io;
use std::io::Read;

// Reads until `buf` is full or the input ends, and answers how many bytes were read. What the input has given stands at the
// front of `buf`, after an error too.
pub fn read_full<R: Read>(input: &mut R, buf: &mut [u8]) -> io::Result<usize>
    ensures bound { ReadsAtMost result buf.new }
    ensures bytes { IfOk result (λ n. Consumes (R.remaining input.old) (R.remaining input.new) (take n buf.new)) }
    ensures end { IfOk result (λ n. n < length buf.new → IsAtEnd (R.remaining input.new)) }
    ensures err { OnErr result ((n : ℕ) × (n ≤ length buf.new) × Consumes (R.remaining input.old) (R.remaining input.new) (take n buf.new)) }
{
    let mut done = 0;
    // Each read gives as many bytes as it likes, so that no `for` counts them.
    while done < buf.len() {
        let n = input.read(&mut buf[done..])?;
        if n == 0 {
            break;
        }
        done += n;
    }
    Ok(done)
}

// An array of one byte. A proof that sees a long array written out runs out of room, and so sees this result's length instead.
pub fn filled<const N: usize>(b: u8) -> [u8; N]
    ensures len { N ≡ length result }
    ensures bytes { All (λ x. x ≡ b) result }
{
    [b; N]
}

// The value of a hex digit in lower case; `char::to_digit` takes upper case too.
pub fn hex_digit(b: u8) -> Option<u8>
    ensures { result ≡ hex_value b }
{
    match b {
        b'0'..=b'9' => Some(b - b'0'),
        b'a'..=b'f' => Some(b - b'a' + 10),
        _ => None,
    }
}

#[cfg(test)]
mod tests {
    use super::*;
    use std::test::Fail;

    #[derive(Drop)]
    struct Broken;

    impl Read for Broken {
        fn read(&mut self, _buf: &mut [u8]) -> io::Result<usize> {
            Err(io::Error::from(io::ErrorKind::NotConnected))
        }
    }

    // Two readers behind one another give their bytes in two reads.
    #[test]
    fn reads_to_the_end(rt: HostRuntime) -> Result<(), Fail> {
        let first: &[u8] = b"ab";
        let second: &[u8] = b"cd";
        let mut buf = [7u8; 5];
        let n = read_full(&mut first.chain(second), &mut buf)?;
        assert_eq!(rt; n, 4);
        assert_eq!(rt; buf.as_slice(), b"abcd\x07".as_slice());
        Ok(())
    }

    #[test]
    fn reads_until_full(rt: HostRuntime) -> Result<(), Fail> {
        let mut input: &[u8] = b"abcd";
        let mut buf = [0u8; 3];
        let n = read_full(&mut input, &mut buf)?;
        assert_eq!(rt; n, 3);
        assert_eq!(rt; buf.as_slice(), b"abc".as_slice());
        assert_eq!(rt; input, b"d".as_slice());
        Ok(())
    }

    #[test]
    fn stops_at_an_error(rt: HostRuntime) -> Result<(), Fail> {
        let first: &[u8] = b"ab";
        let mut buf = [7u8; 4];
        let r = read_full(&mut first.chain(Broken), &mut buf);
        assert!(rt; r.is_err());
        assert_eq!(rt; buf.as_slice(), b"ab\x07\x07".as_slice());
        Ok(())
    }
}

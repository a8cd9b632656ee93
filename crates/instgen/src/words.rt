// The words of the command line behind the program's name. The name is not looked at, so it need not be text.
ghost use Rattle.std.specs.Prelude.{◌≡◌, ◌⊎◌, IfErr};

use std::alloc::Global;
use std::env;
use std::env::{Env, FillError};
use std::io::ErrorKind;
use szs_prove::Exit;

// The environment with the arguments from the second one on.
#[derive(Drop)]
struct BehindName<'a, E>(&'a E);

impl<E: Env> Env for BehindName<'_, E> {
    fn arg(&self, i: usize, buf: &mut [u8]) -> Result<usize, FillError> {
        match i.checked_add(1) {
            Some(next) => self.0.arg(next, buf),
            None => Err(FillError::NotPresent),
        }
    }

    fn var(&self, name: &str, buf: &mut [u8]) -> Result<usize, FillError> {
        self.0.var(name, buf)
    }

    fn var_at(&self, i: usize, buf: &mut [u8]) -> Result<usize, FillError> {
        self.0.var_at(i, buf)
    }
}

/// The words behind the program's name. Where one of them is no text the exit is that of words that are not read.
pub fn words<E: Env>(env: &E, alloc: Global) -> Result<Vec<String>, Exit>
    ensures { IfErr result (λ e. (e ≡ Exit.Usage) ⊎ (e ≡ Exit.Memory)) }
{
    match env::args(&(BehindName(env), alloc)) {
        Ok(words) => words_of(words, alloc),
        Err(error) if error.kind() == ErrorKind::OutOfMemory => Err(Exit::Memory),
        Err(_) => Err(Exit::Usage),
    }
}

fn words_of(words: env::Args, alloc: Global) -> Result<Vec<String>, Exit>
    ensures { IfErr result (λ e. e ≡ Exit.Memory) }
{
    let mut all = Vec::new(alloc);
    for word in words {
        if all.push(word).is_err() {
            return Err(Exit::Memory);
        }
    }
    Ok(all)
}

#[cfg(test)]
mod tests {
    use super::{Exit, words};
    use std::env::{Env, FillError};
    use std::test::Fail;

    // Three arguments, of which the first is no text.
    #[derive(Drop)]
    struct Arguments {
        second: &'static [u8],
    }

    impl Env for Arguments {
        fn arg(&self, i: usize, buf: &mut [u8]) -> Result<usize, FillError> {
            let text: &[u8] = match i {
                0 => b"inst\xffgen",
                1 => self.second,
                2 => b"r.p",
                _ => return Err(FillError::NotPresent),
            };
            if text.len() > buf.len() {
                return Err(FillError::TooLong);
            }
            buf[..text.len()].copy_from_slice(text);
            Ok(text.len())
        }

        fn var(&self, _name: &str, _buf: &mut [u8]) -> Result<usize, FillError> {
            Err(FillError::NotPresent)
        }

        fn var_at(&self, _i: usize, _buf: &mut [u8]) -> Result<usize, FillError> {
            Err(FillError::NotPresent)
        }
    }

    #[test]
    fn a_name_that_is_no_text(rt: HostRuntime) -> Result<(), Fail> {
        match words(&Arguments { second: b"prove" }, rt.alloc()) {
            Ok(all) => {
                assert_eq!(rt; all.len(), 2);
                assert_eq!(rt; all[0].as_str(), "prove");
                assert_eq!(rt; all[1].as_str(), "r.p");
            }
            Err(_) => assert!(rt; false),
        }
        Ok(())
    }

    #[test]
    fn a_word_that_is_no_text(rt: HostRuntime) -> Result<(), Fail> {
        let arguments = Arguments {
            second: b"pro\xffve",
        };
        let found = words(&arguments, rt.alloc());
        assert!(rt; matches!(&found, Err(Exit::Usage)));
        Ok(())
    }
}

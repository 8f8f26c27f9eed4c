//! Carries out a link script, and prints what its calls answer.
//!
//! The script is the file named as the argument, or else standard input. An error of the script ends the run with status 1.

#![tactic(auto)]

use anyhow::{anyhow, bail};
use runner::run::{Ending, run};
use std::io::Read;
use std::{env, fs, io};

/// Reads the script.
fn read_script(rt: &HostRuntime) -> io::Result<Vec<u8>> {
    match env::args(rt)?.nth(1) {
        Some(path) => fs::read(rt, path.as_str()),
        None => {
            let mut text = Vec::new(rt.alloc());
            rt.stdin().read_to_end(&mut text)?;
            Ok(text)
        }
    }
}

/// Runs the script, and prints what it answers also where memory gives out.
fn run_script(rt: &HostRuntime) -> anyhow::Result<Ending> {
    let script = read_script(rt)?;
    let mut out = String::new(rt.alloc());
    let ending = run(rt.alloc(), script.as_slice(), &mut out);
    rt.print(out.as_str())?;
    ending.map_err(|_| anyhow!("out of memory"))
}

fn main(rt: HostRuntime) -> anyhow::Result<()> {
    match run_script(&rt)? {
        Ending::Complete => Ok(()),
        Ending::Faulty => bail!("the script has an error"),
    }
}

#[cfg(test)]
mod tests {
    use super::*;
    use std::alloc::Global;
    use std::process::Abort;
    use std::test::Fail;

    // That a script prints a text and ends so.
    fn prints(
        rt: &impl Abort,
        heap: Global,
        script: &[u8],
        text: &str,
        ending: Ending,
    ) -> Result<(), Fail> {
        let mut out = String::new(heap);
        let ended = run(heap, script, &mut out)?;
        assert_eq!(rt; out.as_str(), text);
        assert_eq!(rt; ended, ending);
        Ok(())
    }

    #[test]
    fn error_ends_the_run(rt: HostRuntime) -> Result<(), Fail> {
        let script = b"append 00\n# a comment\n\nappend 0\ndump\n";
        prints(
            &rt,
            rt.alloc(),
            script,
            "1 append ok\n4 error: not bytes in hexadecimal digits\n",
            Ending::Faulty,
        )
    }

    #[test]
    fn refused_hold_comes_before_the_error(rt: HostRuntime) -> Result<(), Fail> {
        let script = b"sink words 0\nhold 00\nsink words 1\n";
        prints(
            &rt,
            rt.alloc(),
            script,
            "2 hold refused 9 NoRoom\n3 error: comes too late\n",
            Ending::Faulty,
        )
    }

    #[test]
    fn nothing_prints_nothing(rt: HostRuntime) -> Result<(), Fail> {
        prints(&rt, rt.alloc(), b"", "", Ending::Complete)
    }
}

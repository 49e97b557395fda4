// Tests of what is read from the text of a script, and of what is written.
#![tactic(auto)]

#[cfg(test)]
mod tests {
    use module::Levels;
    use runs::{Answer, Call, Reply};
    use script::listing::{Echo, Entry};
    use script::{Script, Setup, StageKind, parse, perform};
    use std::alloc::Global;
    use std::fmt::Write;
    use std::test::Fail;
    use values::Model;

    fn said(heap: Global, text: &str) -> Result<String, Fail> {
        match parse(heap, text) {
            Ok(script) => Ok(perform(heap, script)?.to_string(heap)?),
            Err(fault) => Ok(fault.to_string(heap)?),
        }
    }

    #[test]
    fn bad_lines(rt: HostRuntime) -> Result<(), Fail> {
        let cases = [
            ("", "line 1: the first command is not a module"),
            ("# a\n\n", "line 3: the first command is not a module"),
            ("read 0\n", "line 1: the first command is not a module"),
            (
                "module 500 direct 1\nmodule 500 direct 1",
                "line 2: a second module",
            ),
            ("module 500 direct 1\n\n reed 0", "line 3: unknown command"),
            ("module 500 direct", "line 1: a word is missing"),
            ("module 500 direct 1 1 1 1 1 1 1", "line 1: a word too many"),
            ("module 5000 direct 1", "line 1: no such model"),
            (
                "module 500 distributor +1",
                "line 1: the count is not decimal",
            ),
            (
                "module 500 direct 1\nblock 1\n0 0 high",
                "line 3: neither a read nor a write",
            ),
            (
                "module 500 direct 1\nblock 2\nread 0",
                "line 4: the script ends inside a block",
            ),
            (
                "module 500 direct 1\nround 1 good open 1 0x42C80000 1\n",
                "line 3: the script ends inside a round",
            ),
            (
                "module 500 direct 1\nround 1 good open 1 0x42C8 1\n",
                "line 2: not a number",
            ),
        ];
        for (text, expected) in cases {
            assert_eq!(rt; said(rt.alloc(), text)?.as_str(), expected);
        }
        Ok(())
    }

    #[test]
    fn listings(rt: HostRuntime) -> Result<(), Fail> {
        let cases = [
            (
                "module 6000 distributor 0",
                "module 6000 distributor 1\nlevels 0\n0 calls: 0 done, 0 refused\n",
            ),
            (
                "\tmodule 2000\tdirect 99999999999999999999#all\n\n# none\n  read 3c # twelve\n",
                "module 2000 direct 12\nread 003C: 0FFF\nlevels 0 0 0 0 0 0 0 0 0 0 0 0\n1 calls: 1 done, 0 refused\n",
            ),
            (
                "module 2000 direct 2\nblock 3\n read 0\n#\n write 6a fFf\n read 0\nread 50\nwrite 62 8\nwrite 68 447A\nwrite 6A 0\n",
                "module 2000 direct 2\n  read 0000 7700\n  write 006A 0FFF\n  read 0000 0000\nblock of 3: refused at 1: 4 offset 006A\nread 0050: refused 2 offset 0050\nwrite 0062 0008: done\nwrite 0068 447A: done\nwrite 006A 0000: done\nlevels 0 0\n5 calls: 3 done, 2 refused\n",
            ),
            (
                "module 2000 direct 1\nwrite 62 8\nwrite 68 447A\nwrite 6A 0\nround 20 good closed 100 0x42C80000 1\n 0 0 high\nround 20 good closed 100 100 2\n0 0 low\n1e3 inf high\nround 20 bad closed 100 100 1\n0 0 low\nblock 0\n",
                "module 2000 direct 1\nwrite 0062 0008: done\nwrite 0068 447A: done\nwrite 006A 0000: done\nround of 1: done\nlevels 100\nround of 2: refused 7 readings 2\nround of 1: done\nlevels 0\nblock of 0: 0 done\nlevels 0\n7 calls: 6 done, 1 refused\n",
            ),
        ];
        for (text, expected) in cases {
            assert_eq!(rt; said(rt.alloc(), text)?.as_str(), expected);
        }
        Ok(())
    }

    // A count that `parse` does not give is shown as it is, and levels only where the steps are others.
    #[test]
    fn script_by_hand(rt: HostRuntime) -> Result<(), Fail> {
        let mut calls = Vec::new(rt.alloc());
        calls.push(Call::Read { offset: 0 })?;
        let setup = Setup {
            model: Model::V2000,
            stage: StageKind::Direct,
            count: 0,
        };
        let listing = perform(rt.alloc(), Script { setup, calls })?;
        assert_eq!(rt;
            listing.to_string(rt.alloc())?.as_str(),
            "module 2000 direct 0\nread 0000: 7700\nlevels\n1 calls: 1 done, 0 refused\n"
        );
        Ok(())
    }

    // An answer to another kind of call is an error, and nothing is written.
    #[test]
    fn entry_by_hand(rt: HostRuntime) -> Result<(), Fail> {
        let reply = Reply {
            answer: Answer::Write(Ok(())),
            levels: Levels {
                count: 1,
                steps: [0; 12],
            },
        };
        let mut text = String::new(rt.alloc());
        let entry = Entry {
            echo: Echo::Read { offset: 0 },
            reply: &reply,
        };
        let refused = write!(text, "{entry}").is_err();
        assert!(rt; refused);
        assert_eq!(rt; text.as_str(), "");
        Ok(())
    }
}

use crate::{first_line, read_line, split_input};
use draw_state::{Command, Word};
use std::test::Fail;
use team_files::Code;

#[test]
fn splits_at_the_first_separator(rt: HostRuntime) -> Result<(), Fail> {
    let cases: [(&[u8], &[u8], &[u8]); 7] = [
        (b"", b"", b""),
        (b"--", b"", b""),
        (b"a\n--\nb\nc", b"a\n", b"b\nc"),
        (b"a\r\n--\r\nb\r", b"a\r\n", b"b\r"),
        (b"--x\n--\n--\n", b"--x\n", b"--\n"),
        (b"{}\n --\n---\n", b"{}\n --\n---\n", b""),
        (b"a\n\nb", b"a\n\nb", b""),
    ];
    for (input, head, commands) in cases {
        let (before, after) = split_input(input);
        assert_eq!(rt; before, head, "head of {input:?}");
        assert_eq!(rt; after, commands, "commands of {input:?}");
    }
    Ok(())
}

#[test]
fn cuts_the_first_line(rt: HostRuntime) -> Result<(), Fail> {
    let cases: [(&[u8], Option<(&[u8], &[u8])>); 8] = [
        (b"", None),
        (b"\n", Some((b"", b""))),
        (b"a", Some((b"a", b""))),
        (b"a\r", Some((b"a", b""))),
        (b"a\r\n", Some((b"a", b""))),
        (b"\r\r\n", Some((b"\r", b""))),
        (b"a\n\nb\n", Some((b"a", b"\nb\n"))),
        (b"a\rb\nc", Some((b"a\rb", b"c"))),
    ];
    for (input, line) in cases {
        assert_eq!(rt; first_line(input), line, "first line of {input:?}");
    }
    Ok(())
}

#[test]
fn reads_balls(rt: HostRuntime) -> Result<(), Fail> {
    let villarreal = Code::read(b"VIL").expect(&rt, "VIL is a code");
    let digits = Code::read(b"123").expect(&rt, "123 is a code");
    let cases: [(&[u8], Command); 18] = [
        (b"ball VIL", Command::Ball(Word::Team(villarreal))),
        (b"ball 123", Command::Ball(Word::Team(digits))),
        (b"ball 2", Command::Ball(Word::Number(2))),
        (b"ball 10", Command::Ball(Word::Number(10))),
        (b"ball 99", Command::Ball(Word::Number(99))),
        (b"ball 0", Command::Bad),
        (b"ball 05", Command::Bad),
        (b"ball 1234", Command::Bad),
        (b"ball", Command::Bad),
        (b"ball ", Command::Bad),
        (b"Ball VIL", Command::Bad),
        (b"ball vil", Command::Bad),
        (b"ball  VIL", Command::Bad),
        (b" ball VIL", Command::Bad),
        (b"ball VIL ", Command::Bad),
        (b"undo", Command::Bad),
        (b"", Command::Bad),
        (&[b'A'; 300], Command::Bad),
    ];
    for (line, command) in cases {
        assert_eq!(rt; read_line(line), command, "command of {line:?}");
    }
    Ok(())
}

//! A row of `parse_script`: what is read of a script. Forms, faults and orders are rows of `step`, in rows_runs.

use change_script::parse_script;
use config_graph::Text;
use report_types::Body;
use std::test::Fail;

/// The text has these bytes.
fn is(text: &Text, wanted: &[u8]) -> bool {
    text.as_bytes() == wanted
}

#[test]
fn a_script_is_read(rt: HostRuntime) -> Result<(), Fail> {
    let alloc = rt.alloc();
    let text =
        b"# a script\nuse  line(1).dar\n\nstart Line( 3,-10 )\nrun 5\nchange to Pipe within 7 moving p.F[0]->q , r -> s[1]\nshow\nfinish within 100\nend\n";
    let Ok(script) = parse_script(alloc, text) else {
        panic!(rt; "the script isn't read");
    };
    let lines = script.lines.items();
    assert!(rt; lines.len() == 7);
    for (line, number) in lines.iter().zip([2, 4, 5, 6, 7, 8, 9]) {
        assert!(rt; line.number == number);
    }
    for line in lines {
        let holds = match &line.body {
            Body::File(name) => is(name, b"line(1).dar"),
            Body::Start { name, args } => is(name, b"Line") && args.items() == [3, -10].as_slice(),
            Body::Run(count) => *count == 5,
            Body::Change {
                name,
                args,
                within,
                moves,
            } => {
                is(name, b"Pipe")
                    && args.items().is_empty()
                    && *within == 7
                    && moves.items().len() == 2
                    && moves
                        .items()
                        .iter()
                        .any(|moved| is(&moved.from, b"p.F[0]") && is(&moved.to, b"q"))
                    && moves
                        .items()
                        .iter()
                        .any(|moved| is(&moved.from, b"r") && is(&moved.to, b"s[1]"))
            }
            Body::Show => line.number == 7,
            Body::Finish(within) => *within == 100,
            Body::Stop => line.number == 9,
        };
        assert!(rt; holds, "{}", line.number);
    }
    Ok(())
}

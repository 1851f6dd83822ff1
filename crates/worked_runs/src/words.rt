//! Words of the command line, and what they ask.

use cli_words::read_words;
use std::alloc::Global;
use std::test::Fail;

/// Words, parted at each space, and behind the arrow what they ask, or `Usage` where they ask nothing.
const ASKED: &str = "\
solve net -> Solve(SolveWords { net: \"net\", form: Pq, nodes: 1000, gap: 10000000000, journal: None, rule: Widest, squeeze: false, raise: 0 })
solve --nodes 07 net --form=q --gap 0.001 --rule=first --journal j -> Solve(SolveWords { net: \"net\", form: Q, nodes: 7, gap: 1000000000, journal: Some(\"j\"), rule: First, squeeze: false, raise: 0 })
solve net --nodes=20001 --rule violated -> Solve(SolveWords { net: \"net\", form: Pq, nodes: 20001, gap: 10000000000, journal: None, rule: Violated, squeeze: false, raise: 0 })
solve net --rule=fewest -> Solve(SolveWords { net: \"net\", form: Pq, nodes: 1000, gap: 10000000000, journal: None, rule: Fewest, squeeze: false, raise: 0 })
solve net --squeeze=on --rule violated -> Solve(SolveWords { net: \"net\", form: Pq, nodes: 1000, gap: 10000000000, journal: None, rule: Violated, squeeze: true, raise: 0 })
solve net --raise=0100 -> Solve(SolveWords { net: \"net\", form: Pq, nodes: 1000, gap: 10000000000, journal: None, rule: Widest, squeeze: false, raise: 100 })
solve net --raise on -> Usage
solve --form p --gap=1000000 --nodes 18446744073709551615 --rule widest net --squeeze off -> \
    Solve(SolveWords { net: \"net\", form: P, nodes: 18446744073709551615, gap: 1000000000000000000, journal: None, rule: Widest, squeeze: false, raise: 0 })
solve solve --gap 0 --journal=a=b -> Solve(SolveWords { net: \"solve\", form: Pq, nodes: 1000, gap: 0, journal: Some(\"a=b\"), rule: Widest, squeeze: false, raise: 0 })
check net cert -> Check(\"net\", \"cert\")
report net cert -> Report(\"net\", \"cert\")
formulate net -> Formulate(\"net\", Pq)
formulate --form=pq net -> Formulate(\"net\", Pq)
make 7 -> Make(7)
trial 00000000000000000007 -> Trial(7)
jobs net --journal j -> Jobs(\"net\", \"j\", 16)
jobs --count=1000 --journal=j net -> Jobs(\"net\", \"j\", 1000)
jobs net --journal j --count 0 -> Usage
jobs net --journal j --count 1001 -> Usage
jobs net -> Usage
work net jobs -> Work(\"net\", \"jobs\", Pq)
work --form=q net jobs -> Work(\"net\", \"jobs\", Q)
gather net jobs a b --journal j -> Gather(\"net\", \"jobs\", [\"a\", \"b\"], \"j\")
gather net jobs --journal j -> Usage
gather net jobs a -> Usage
tight net cert -> Tight(\"net\", \"cert\", Pq, 1000)
tight --form=p net --pivots 0 cert -> Tight(\"net\", \"cert\", P, 0)
tight net cert --pivots=18446744073709551615 -> Tight(\"net\", \"cert\", Pq, 18446744073709551615)
tight net cert --nodes 7 -> Usage
tight net -> Usage
checktight net cert tight -> CheckTight(\"net\", \"cert\", \"tight\")
checktight net cert -> Usage
checktight net cert tight --pivots 7 -> Usage
";

#[test]
fn words_that_ask(rt: HostRuntime) -> Result<(), Fail> {
    for case in ASKED.lines() {
        let (words, request) = case.split_once(" -> ").ok_or("an arrow")?;
        assert_eq!(rt; told(rt.alloc(), words)?.as_str(), request);
    }
    Ok(())
}

/// What the words ask, or why nothing, as text.
fn told(alloc: Global, line: &str) -> Result<String, Fail> {
    let mut words = Vec::new(alloc);
    for word in line.split(' ') {
        words.push(String::from_str(alloc, word)?)?;
    }
    match &read_words(alloc, &words) {
        Ok(request) => Ok(format!(in alloc; "{request:?}")?),
        Err(fault) => Ok(format!(in alloc; "{fault:?}")?),
    }
}

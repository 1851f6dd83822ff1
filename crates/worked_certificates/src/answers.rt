//! What comes before every refusal of a certificate: a read that fails, and a file that is too long.

use super::FULL;
use super::items::shelf_of;
use blend_network::Network;
use cert_checker::check_stream;
use std::alloc::{AllocError, Global};
use std::test::Fail;
use worked_networks::{ONE_DIRECT, network};

/// Changes of `FULL`, which leave it 160 bytes, and the answers. The first changes nothing.
const OF_160_BYTES: &str = "\
end to end = Ok(Gap { plan: WrittenPlan { base: 1, flow_base: 1, weights: [], outflows: [], direct: [100000000] }, cost: -300000000000000, base: 1, bound: -300000000000000, gap: 0 })
poolcert 1 to poolcert 2 = Err(Refused(Text(TextFault { line: 1 })))
gap 0 1 to gap 0 2 = Err(Refused(Text(TextFault { line: 12 })))
shape 1 to shape 2 = Err(Refused(Shape))
plan 1 1 to plan 0 1 = Err(Refused(Plan(Shape)))
cost -3 to cost -2 = Err(Refused(WrongCost))
gap 0 1 to gap 1 1 = Err(Refused(WrongGap))
";

/// The answers on a certificate of 160 bytes in pieces of 7. Call 0 opens the file, and each of the 24 reads behind it fails in its turn,
/// of which the last finds nothing more; then none fails; then it may have a byte less.
fn answers(alloc: Global, net: &Network, certificate: &str) -> Result<String, AllocError> {
    let mut told = String::new(alloc);
    for call in 1..27 {
        let most = if call == 26 { 159 } else { 160 };
        let mut shelf = shelf_of(alloc, certificate.as_bytes(), 7, call)?;
        let answer = check_stream(alloc, net, &mut shelf, most);
        told.push_str(format!(in alloc; "{answer:?}\n")?.as_str())?;
    }
    Ok(told)
}

#[test]
fn failed_reads_and_long_files_go_before_refusals(rt: HostRuntime) -> Result<(), Fail> {
    let alloc = rt.alloc();
    let net = network(alloc, ONE_DIRECT)?;
    let failed = "Err(Read)\n".repeat(alloc, 24)?;
    for line in OF_160_BYTES.lines() {
        let (change, answer) = line.split_once(" = ").ok_or("an answer")?;
        let (old, new) = change.split_once(" to ").ok_or("a change")?;
        let certificate = FULL.replace(alloc, old, new)?;
        let told = answers(alloc, &net, certificate.as_str())?;
        let expected = format!(in alloc; "{failed}{answer}\nErr(TooLong)\n")?;
        assert_eq!(rt; told.as_str(), expected.as_str(), "{change}");
    }
    Ok(())
}

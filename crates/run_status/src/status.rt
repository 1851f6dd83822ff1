//! How a run ended: its status, the code of the process, and the line on standard error.

ghost use Rattle.std.specs.Prelude.{◌≡◌, ◌++◌, codes, pos, OnErr};
ghost use Rattle.std.specs.Fmt.{signed_decimal};
ghost use Rattle.edge_io.specs.Counts.{Grows, Rose};
ghost use Rattle.edge_io.specs.Writing.{Wrote};
ghost use Rattle.network_parts.specs.FirstFault as faults;
ghost use Rattle.run_status.specs.Messages.{code_of, message_of, reason_of};

use blend_network::NetFault;
use cert_checker::Refusal;
use edge_io::{Sink, WriteFault, write_number, write_whole};
use network_json::ReadNet;
use text_buffer::TextBuffer;
use tight_checks::TightRefusal;

/// How a run ended.
#[derive(Debug, Drop)]
pub enum Status {
    /// A plan was printed, and its gap is at most the asked one.
    Closed,
    /// The certificate is valid for the network.
    Accepted,
    /// What was asked for was written.
    Done,
    /// The certificate is refused.
    Refused(Refusal),
    /// The text of marks is refused.
    TightRefused(TightRefusal),
    /// The words ask nothing that the program does.
    Usage,
    /// The file is no network.
    NetworkRefused(ReadNet),
    /// More splits or pivots are asked for than there may be, or the tree of the certificate is too large for this network.
    BudgetTooLarge,
    /// The certificate, the text of marks, the jobs or the answers are longer than may be.
    CertTooLong,
    /// The file of jobs is no text of jobs from this line on, or, with line 0, they are no jobs on leaves of a tree of the network.
    JobsRefused(u64),
    /// The jobs are of another tree than the journal's.
    OtherTree,
    /// A plan was printed, its gap is above the asked one, and there are as many splits as were asked for.
    Stopped,
    /// A plan was printed, its gap is above the asked one, and the least leaf can't be cut.
    Stuck,
    /// No plan obeys the network.
    Infeasible,
    /// No plan was found, and none was ruled out.
    Undecided,
    /// The shelf failed.
    ReadFault,
    /// The sink failed.
    WriteFault,
    /// The disk failed.
    DiskFault,
    /// Memory ran out.
    OutOfMemory,
    /// The journal is of another network.
    OtherNetwork,
    /// The record of this number, from 0 and with a Turn counted, is no Turn that its file may have and holds no entry, or one that is
    /// not in order after those before it.
    BadJournal(u64),
    /// The journal is of this version, which is neither 1 nor 2.
    UnknownVersion(u8),
    /// The file is no journal.
    NotAJournal,
}

impl Status {
    /// The code that the process ends with.
    pub fn code(&self) -> u8
        // Promise: Each status has its code
        ensures { result ≡ code_of self.now }
    {
        match self {
            Status::Closed | Status::Accepted | Status::Done => 0,
            Status::Refused(_) | Status::TightRefused(_) => 1,
            Status::Usage => 2,
            Status::NetworkRefused(_) => 3,
            Status::BudgetTooLarge => 4,
            Status::CertTooLong => 5,
            Status::JobsRefused(_) => 6,
            Status::OtherTree => 7,
            Status::Stopped => 10,
            Status::Stuck => 11,
            Status::Infeasible => 12,
            Status::Undecided => 13,
            Status::ReadFault => 20,
            Status::WriteFault => 21,
            Status::DiskFault => 22,
            Status::OutOfMemory => 23,
            Status::OtherNetwork => 30,
            Status::BadJournal(_) => 31,
            Status::UnknownVersion(_) => 32,
            Status::NotAJournal => 33,
        }
    }
}

/// Writes the status's line for standard error, as one piece, or nothing where a certificate was printed. It takes no memory.
///
/// `WriteFault` comes only where the sink's count of faults rose; the sink has taken a front of the line then.
pub fn write_message<K: Sink>(status: &Status, err: &mut K) -> Result<(), WriteFault>
    // Promise: Each status has its line on standard error, or a front of it where that fails
    ensures wrote { Wrote result (K.taken err.old) (message_of status.now) (K.taken err.new) }
    ensures failed { OnErr result (Rose (K.faults err.old) (K.faults err.new)) }
{
    let mut line = TextBuffer::new();
    match put_message(status, &mut line) {
        Ok(()) => write_whole(err, line.text()),
        Err(_) => put_message(status, err),
    }
}

/// Writes the status's line, word by word.
fn put_message<K: Sink>(status: &Status, err: &mut K) -> Result<(), WriteFault>
    ensures wrote { Wrote result (K.taken err.old) (message_of status.now) (K.taken err.new) }
    ensures failed { OnErr result (Rose (K.faults err.old) (K.faults err.new)) }
{
    match status {
        Status::Closed
        | Status::Stopped
        | Status::Stuck
        | Status::Infeasible
        | Status::Undecided
        | Status::Accepted
        | Status::Done
        | Status::Refused(_)
        | Status::TightRefused(_) => write_whole(err, b""),
        Status::Usage => write_whole(err, USAGE),
        Status::NetworkRefused(cause) => write_refusal(cause, err),
        Status::BudgetTooLarge => { write_whole(err, b"pool: too many nodes for this network\n") }
        Status::CertTooLong => write_whole(err, b"pool: certificate too long\n"),
        Status::JobsRefused(line) => write_between(
            b"pool: jobs refused at line ",
            *line,
            b"\n",
            err,
        ),
        Status::OtherTree => write_whole(err, b"pool: jobs of another tree\n"),
        Status::ReadFault => write_whole(err, b"pool: read fault\n"),
        Status::WriteFault => write_whole(err, b"pool: write fault\n"),
        Status::DiskFault => write_whole(err, b"pool: disk fault\n"),
        Status::OutOfMemory => write_whole(err, b"pool: out of memory\n"),
        Status::OtherNetwork => write_whole(err, b"pool: journal of another network\n"),
        Status::BadJournal(number) => {
            write_between(b"pool: journal record ", *number, b" is bad\n", err)
        }
        Status::UnknownVersion(version) => write_between(
            b"pool: journal of unknown version ",
            u64::from(*version),
            b"\n",
            err,
        ),
        Status::NotAJournal => write_whole(err, b"pool: not a journal\n"),
    }
}

const USAGE: &[u8] =
    b"pool: usage: solve NET, check NET CERT, report NET CERT, formulate NET, make N or trial N\n";

/// Writes a number between words.
fn write_between<K: Sink>(
    before: &[u8],
    number: u64,
    behind: &[u8],
    err: &mut K,
) -> Result<(), WriteFault>
    ensures wrote { Wrote result (K.taken err.old) (before.now ++ (signed_decimal (pos number) ++ behind.now)) (K.taken err.new) }
    ensures failed { OnErr result (Rose (K.faults err.old) (K.faults err.new)) }
{
    write_whole(err, before)?;
    write_number(err, i128::from(number))?;
    write_whole(err, behind)
}

/// Writes the line of a refusal.
fn write_refusal<K: Sink>(cause: &ReadNet, err: &mut K) -> Result<(), WriteFault>
    ensures wrote { Wrote result (K.taken err.old) (codes "pool: network refused: " ++ (reason_of cause.now ++ codes "\n")) (K.taken err.new) }
    ensures failed { OnErr result (Rose (K.faults err.old) (K.faults err.new)) }
{
    write_whole(err, b"pool: network refused: ")?;
    write_reason(cause, err)?;
    write_whole(err, b"\n")
}

/// Writes the number of the cause, and where the rows were refused the number of their fault behind it.
fn write_reason<K: Sink>(cause: &ReadNet, err: &mut K) -> Result<(), WriteFault>
    ensures wrote { Wrote result (K.taken err.old) (reason_of cause.now) (K.taken err.new) }
    ensures failed { OnErr result (Rose (K.faults err.old) (K.faults err.new)) }
    ensures faults_grow { Grows (K.faults err.old) (K.faults err.new) }
{
    match cause {
        ReadNet::Net(fault) => write_refused_rows(cause.number(), fault, err),
        cause => write_number(err, i128::from(cause.number())),
    }
}

/// Writes the number of the cause, and behind it the number of the rows' fault.
fn write_refused_rows<K: Sink>(cause: u32, fault: &NetFault, err: &mut K) -> Result<(), WriteFault>
    ensures wrote { Wrote result (K.taken err.old) (signed_decimal (pos cause) ++ (codes " " ++ signed_decimal (pos (faults.number fault.now)))) (K.taken err.new) }
    ensures failed { OnErr result (Rose (K.faults err.old) (K.faults err.new)) }
    ensures faults_grow { Grows (K.faults err.old) (K.faults err.new) }
{
    write_number(err, i128::from(cause))?;
    write_rows_fault(fault, err)
}

/// Writes a space and the number of the rows' fault.
fn write_rows_fault<K: Sink>(fault: &NetFault, err: &mut K) -> Result<(), WriteFault>
    ensures wrote { Wrote result (K.taken err.old) (codes " " ++ signed_decimal (pos (faults.number fault.now))) (K.taken err.new) }
    ensures failed { OnErr result (Rose (K.faults err.old) (K.faults err.new)) }
    ensures faults_grow { Grows (K.faults err.old) (K.faults err.new) }
{
    write_whole(err, b" ")?;
    write_number(err, i128::from(fault.number()))
}

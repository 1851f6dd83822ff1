//! What words can ask.

use box_space::Form;
use branching::RuleName;

/// What `solve` is asked.
#[derive(Debug, Drop)]
pub struct SolveWords {
    /// The name of the network's file.
    pub net: String,
    pub form: Form,
    /// The most splits that the search may make.
    pub nodes: u64,
    /// The gap that closes the search, in picos.
    pub gap: i128,
    /// The name of the journal's file.
    pub journal: Option<String>,
    pub rule: RuleName,
    /// Whether pieces are cut off leaves where that pays.
    pub squeeze: bool,
    /// How many pivots may be made to raise the bound of a new half; 0 is that none is raised.
    pub raise: u64,
}

/// What the words ask.
#[derive(Debug, Drop)]
pub enum Request {
    Solve(SolveWords),
    /// To check a certificate: the names of the network's file and of the certificate's.
    Check(String, String),
    /// To report on a certificate: the names of the network's file and of the certificate's.
    Report(String, String),
    /// To write the program of the network in the file of this name.
    Formulate(String, Form),
    /// To make the network of this number.
    Make(u64),
    /// To try the network of this number.
    Trial(u64),
    /// To write jobs of the tree in a journal: the names of the network's file and of the journal's, and how many jobs at the most.
    Jobs(String, String, u32),
    /// To work jobs: the names of the network's file and of that of the jobs, and the form of the program.
    Work(String, String, Form),
    /// To gather answers to jobs: the names of the network's file, of that of the jobs, of those of the answers and of the journal's.
    Gather(String, String, Vec<String>, String),
    /// To mark the leaves of a certificate, each by whether the rows of a form allow a greater bound: the names of the network's file and of
    /// the certificate's, the form, and how many pivots may be made at a leaf.
    Tight(String, String, Form, u64),
    /// To check marks of the leaves of a certificate: the names of the network's file, of the certificate's, and of that of the marks.
    CheckTight(String, String, String),
}

/// Why there is no request.
#[derive(Clone, Copy, Debug, PartialEq, Eq)]
pub enum WordsFault {
    /// The words ask none.
    Usage,
    /// Memory ran out.
    Memory,
}

//! A gathering: a journal, and the desk whose tree is made of what the journal holds.

ghost use Rattle.std.specs.Prelude.{◌≡◌, ◌++◌, ◌∷◌, [], ℕ, List, IsTrue, IfErr, OnOk, IsErrOf, MatchResult};
ghost use Rattle.edge_io.specs.Counts.{Rose};
ghost use Rattle.disk_calls.specs.Disks.{LeavesOnly, IsSameDisk};
ghost use Rattle.pool_model.specs.Network.{net_of};
ghost use Rattle.row_model.specs.Entries as entries;
ghost use Rattle.box_tree.specs.Views.{shown_entry};
ghost use Rattle.journal_format.specs.Records.{IsKeptAt};
ghost use Rattle.journal_format.specs.declared.fault.JournalFault.TheVariants as journal_faults;
ghost use Rattle.node_journal.specs.Journals.{IsLeft, IsBeforeOrAfter};
ghost use Rattle.node_journal.specs.Settled.{IsOnDisk};
ghost use Rattle.recorded_run.specs.Recorded.{IsFreeFault};
ghost use Rattle.work_units.specs.Desks.{desk_of};
ghost use Rattle.work_units.specs.Judging.{IsJudged, after_delivery};
ghost use Rattle.work_units.specs.Views.{shown_answer};
ghost use Rattle.work_units.specs.declared.answer.Judged.TheVariants as judgements;
ghost use Rattle.gathered_run.specs.Files.{an_answer, items_of_answers, items_in, items_of};
ghost use Rattle.gathered_run.specs.Steps.{IsReady, AreTaken, AreStopped};

use crate::files::AnswersFile;
use crate::told::Line;
use blend_network::Network;
use disk_calls::Disk;
use node_journal::Journal;
use recorded_run::{RunFault, put};
use work_units::{Answer, Desk, Judged, judgement_law};

/// A journal, the desk whose tree is made of what the journal holds, and what is told so far.
#[derive(Drop)]
pub(crate) struct Gathering {
    pub(crate) journal: Journal,
    pub(crate) desk: Desk,
    pub(crate) lines: Vec<Line>,
}

impl Gathering {
    /// Takes what all files bring, in order.
    pub(crate) fn take_files<D: Disk>(
        &mut self,
        net: &Network,
        disk: &mut D,
        files: Vec<AnswersFile>,
    ) -> Result<(), RunFault>
        requires ready { IsReady (net_of net.now) self.old }
        requires left { IsTrue (D.told disk.old).tells → IsLeft self.old.journal (D.told disk.old) }
        ensures ready { OnOk result (IsReady (net_of net.now) self.new) }
        ensures left { OnOk result (IsTrue (D.told disk.new).tells → IsLeft self.new.journal (D.told disk.new)) }
        ensures taken { MatchResult result
            (λ _. AreTaken (net_of net.now) (items_of files.items) self.old self.new (D.told disk.old) (D.told disk.new))
            (AreStopped (net_of net.now) (items_of files.items) self.old (D.told disk.old) (D.told disk.new)) }
        ensures free { IfErr result IsFreeFault }
        ensures failed { IsErrOf result (RunFault.Journal journal_faults.Disk) → Rose (D.told disk.old).faults (D.told disk.new).faults }
        ensures same_disk { IsSameDisk (D.told disk.old) (D.told disk.new) }
    {
        let mut number = 0;
        for file in files {
            self.take_file(net, disk, number, file)?;
            number += 1;
        }
        Ok(())
    }

    /// Takes what the file of this number brings.
    fn take_file<D: Disk>(
        &mut self,
        net: &Network,
        disk: &mut D,
        number: usize,
        file: AnswersFile,
    ) -> Result<(), RunFault>
        requires ready { IsReady (net_of net.now) self.old }
        requires left { IsTrue (D.told disk.old).tells → IsLeft self.old.journal (D.told disk.old) }
        ensures ready { OnOk result (IsReady (net_of net.now) self.new) }
        ensures left { OnOk result (IsTrue (D.told disk.new).tells → IsLeft self.new.journal (D.told disk.new)) }
        ensures taken { MatchResult result
            (λ _. AreTaken (net_of net.now) (items_in number file) self.old self.new (D.told disk.old) (D.told disk.new))
            (AreStopped (net_of net.now) (items_in number file) self.old (D.told disk.old) (D.told disk.new)) }
        ensures free { IfErr result IsFreeFault }
        ensures failed { IsErrOf result (RunFault.Journal journal_faults.Disk) → Rose (D.told disk.old).faults (D.told disk.new).faults }
        ensures same_disk { IsSameDisk (D.told disk.old) (D.told disk.new) }
    {
        match file {
            AnswersFile::Answers(answers) => self.take_answers(net, disk, answers),
            AnswersFile::Faulty(line) => {
                self.lines.push(Line::Faulty { file: number, line })?;
                Ok(())
            }
        }
    }

    /// Takes these answers, in order.
    fn take_answers<D: Disk>(
        &mut self,
        net: &Network,
        disk: &mut D,
        answers: Vec<Answer>,
    ) -> Result<(), RunFault>
        requires ready { IsReady (net_of net.now) self.old }
        requires left { IsTrue (D.told disk.old).tells → IsLeft self.old.journal (D.told disk.old) }
        ensures ready { OnOk result (IsReady (net_of net.now) self.new) }
        ensures left { OnOk result (IsTrue (D.told disk.new).tells → IsLeft self.new.journal (D.told disk.new)) }
        ensures taken { MatchResult result
            (λ _. AreTaken (net_of net.now) (items_of_answers answers.items) self.old self.new (D.told disk.old) (D.told disk.new))
            (AreStopped (net_of net.now) (items_of_answers answers.items) self.old (D.told disk.old) (D.told disk.new)) }
        ensures free { IfErr result IsFreeFault }
        ensures failed { IsErrOf result (RunFault.Journal journal_faults.Disk) → Rose (D.told disk.old).faults (D.told disk.new).faults }
        ensures same_disk { IsSameDisk (D.told disk.old) (D.told disk.new) }
    {
        for answer in answers {
            self.take(net, disk, answer)?;
        }
        Ok(())
    }

    /// Judges an answer and tells how. One that fits is recorded, and then taken; any other changes nothing.
    fn take<D: Disk>(&mut self, net: &Network, disk: &mut D, answer: Answer) -> Result<(), RunFault>
        requires ready { IsReady (net_of net.now) self.old }
        requires left { IsTrue (D.told disk.old).tells → IsLeft self.old.journal (D.told disk.old) }
        ensures ready { OnOk result (IsReady (net_of net.now) self.new) }
        ensures left { OnOk result (IsTrue (D.told disk.new).tells → IsLeft self.new.journal (D.told disk.new)) }
        ensures taken { MatchResult result
            (λ _. AreTaken (net_of net.now) (an_answer (shown_answer answer) ∷ []) self.old self.new (D.told disk.old) (D.told disk.new))
            (AreStopped (net_of net.now) (an_answer (shown_answer answer) ∷ []) self.old (D.told disk.old) (D.told disk.new)) }
        ensures free { IfErr result IsFreeFault }
        ensures failed { IsErrOf result (RunFault.Journal journal_faults.Disk) → Rose (D.told disk.old).faults (D.told disk.new).faults }
        ensures same_disk { IsSameDisk (D.told disk.old) (D.told disk.new) }
    {
        let number = answer.number;
        let judged = self.desk.judge(net, &answer)?;
        match judged {
            Judged::Fits => self.take_fitting(net, disk, answer),
            _ => {
                self.lines.push(Line::Answer { number, judged })?;
                Ok(())
            }
        }
    }

    /// Records and takes an answer that fits, and tells so.
    fn take_fitting<D: Disk>(
        &mut self,
        net: &Network,
        disk: &mut D,
        answer: Answer,
    ) -> Result<(), RunFault>
        requires ready { IsReady (net_of net.now) self.old }
        requires fits { IsJudged (net_of net.now) (desk_of self.old.desk) (shown_answer answer) judgements.Fits }
        requires left { IsTrue (D.told disk.old).tells → IsLeft self.old.journal (D.told disk.old) }
        ensures ready { OnOk result (IsReady (net_of net.now) self.new) }
        ensures left { OnOk result (IsTrue (D.told disk.new).tells → IsLeft self.new.journal (D.told disk.new)) }
        ensures taken { MatchResult result
            (λ _. AreTaken (net_of net.now) (an_answer (shown_answer answer) ∷ []) self.old self.new (D.told disk.old) (D.told disk.new))
            (AreStopped (net_of net.now) (an_answer (shown_answer answer) ∷ []) self.old (D.told disk.old) (D.told disk.new)) }
        ensures free { IfErr result IsFreeFault }
        ensures failed { IsErrOf result (RunFault.Journal journal_faults.Disk) → Rose (D.told disk.old).faults (D.told disk.new).faults }
        ensures same_disk { IsSameDisk (D.told disk.old) (D.told disk.new) }
    {
        let number = answer.number;
        self.record(net, disk, answer)?;
        let judged = Judged::Fits;
        self.lines.push(Line::Answer { number, judged })?;
        Ok(())
    }

    /// Records the entry of an answer that fits, and takes the answer.
    fn record<D: Disk>(
        &mut self,
        net: &Network,
        disk: &mut D,
        answer: Answer,
    ) -> Result<(), RunFault>
        requires ready { IsReady (net_of net.now) self.old }
        requires fits { IsJudged (net_of net.now) (desk_of self.old.desk) (shown_answer answer) judgements.Fits }
        requires left { IsTrue (D.told disk.old).tells → IsLeft self.old.journal (D.told disk.old) }
        ensures ready { OnOk result (IsReady (net_of net.now) self.new) }
        ensures desk { OnOk result (desk_of self.new.desk ≡ after_delivery (desk_of self.old.desk) (shown_answer answer) judgements.Fits) }
        ensures lines { self.new.lines ≡ self.old.lines }
        // The entry stands on the disk then.
        ensures recorded { OnOk result ((text file : List ℕ) (list : List entries.Entry) →
            IsOnDisk file (D.told disk.old) → IsKeptAt self.old.journal.next text list file →
            (after : List ℕ) × IsOnDisk after (D.told disk.new) × IsKeptAt self.new.journal.next text (list ++ shown_entry answer.entry ∷ []) after) }
        // So it does where memory runs out behind it.
        ensures kept { IsErrOf result (RunFault.Journal journal_faults.Memory) → (text file : List ℕ) (list : List entries.Entry) →
            IsOnDisk file (D.told disk.old) → IsKeptAt self.old.journal.next text list file →
            (after : List ℕ) × IsOnDisk after (D.told disk.new) × IsKeptAt self.new.journal.next text (list ++ shown_entry answer.entry ∷ []) after }
        ensures any_moment { (text file : List ℕ) (list : List entries.Entry) →
            IsOnDisk file (D.told disk.old) → IsKeptAt self.old.journal.next text list file →
            LeavesOnly (D.told disk.old) (D.told disk.new) (IsBeforeOrAfter text list (shown_entry answer.entry)) }
        ensures free { IfErr result IsFreeFault }
        ensures failed { IsErrOf result (RunFault.Journal journal_faults.Disk) → Rose (D.told disk.old).faults (D.told disk.new).faults }
        ensures same_disk { IsSameDisk (D.told disk.old) (D.told disk.new) }
    {
        put(&mut self.journal, disk, &answer.entry)?;
        // What fits where it is judged fits where it is delivered.
        judgement_law();
        self.desk.deliver(net, answer)?;
        Ok(())
    }
}

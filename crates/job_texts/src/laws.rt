//! The law of the texts of jobs and answers, for the proofs of the crates above. There is no code here.

ghost use Rattle.std.specs.Prelude.{◌≡◌, ◌++◌, ◌↔◌, ℕ, List, Ok, Err};
ghost use Rattle.cert_text.specs.Lines.{IsFaultyLine};
ghost use Rattle.cert_text.specs.Reading.{whole};
ghost use Rattle.work_units.specs.Units.{Answer};
ghost use Rattle.job_texts.specs.Reading.{answers_at, jobs_at};
ghost use Rattle.job_texts.specs.Texts.{AreJobs, AreWritten, Jobs, answers_text, jobs_text};

/// Jobs are read exactly where they are spelled, and so are answers. No two share a text, and none's text begins another's.
pub fn text_law()
    // Promise: A jobs text is read as the jobs that have it, exactly where some have
    ensures jobs { (bytes : List ℕ) (j : Jobs) → (whole jobs_at bytes ≡ Ok j) ↔ (AreJobs j × (bytes ≡ jobs_text j)) }
    // Promise: What is no jobs text has a first faulty line
    ensures faulty_jobs { (bytes : List ℕ) (line : ℕ) → whole jobs_at bytes ≡ Err line → IsFaultyLine Jobs AreJobs jobs_text bytes line }
    // Promise: No two lists of jobs share a text, and none's text begins another's
    ensures one_jobs { (j k : Jobs) (more : List ℕ) → AreJobs j → AreJobs k → jobs_text j ≡ jobs_text k ++ more → j ≡ k }
    // Promise: An answers text is read as the answers that have it, exactly where some have
    ensures answers { (bytes : List ℕ) (a : List Answer) → (whole answers_at bytes ≡ Ok a) ↔ (AreWritten a × (bytes ≡ answers_text a)) }
    // Promise: What is no answers text has a first faulty line
    ensures faulty_answers { (bytes : List ℕ) (line : ℕ) → whole answers_at bytes ≡ Err line → IsFaultyLine (List Answer) AreWritten answers_text bytes line }
    // Promise: No two lists of answers share a text, and none's text begins another's
    ensures one_answers { (a b : List Answer) (more : List ℕ) → AreWritten a → AreWritten b → answers_text a ≡ answers_text b ++ more → a ≡ b }
{}

//! What follows from the definitions alone. The function does nothing.
ghost use Rattle.std.specs.Prelude.{◌≡◌, ℕ, [], Some, codes};
ghost use Rattle.job_readers.specs.WholeJob.{job_faults, job_value};
ghost use Rattle.job_text.specs.Json.{json_of};
ghost use Rattle.job_gen.specs.Draws.{drawn};
ghost use Rattle.job_gen.specs.DrawnFacts.{IsDrawn};
ghost use Rattle.job_gen.specs.Values.{gen_text_of, gen_value};
ghost use Rattle.job_gen.specs.Generated.{gen_job};

/// Whatever the number: so many vertices, nets and packets are drawn, each number within its limits; the text of the number is
/// read as the value of its job; and a reader of jobs up to version 3 finds no fault in the value, and reads it as the job of
/// the number.
pub fn generated_jobs_are_read()
    ensures drawn { (n : ℕ) → IsDrawn (drawn n) }
    ensures text { (n : ℕ) → json_of (gen_text_of n) ≡ Some (gen_value n) }
    ensures no_fault { (n : ℕ) → job_faults (codes "job") 3 (gen_value n) ≡ [] }
    ensures job { (n : ℕ) → job_value (gen_value n) ≡ gen_job n }
{}

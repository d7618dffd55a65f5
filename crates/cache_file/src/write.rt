//! The file of a cache, written.
ghost use Rattle.std.specs.Prelude.{◌≡◌, ◌++◌, IfOk, OnOk};
ghost use Rattle.std.specs.List.{AllByRecursion};
ghost use Rattle.cache_file.specs.Written.{IsWritten, AreReadBack, IsReadable, file_of, proved_job, proved_jobs, written_line};

use crate::lines::LINE_FEED;
use cache_line::write_line;
use core_expr::{Canon, Memory};
use proof_cache::Verdict;
use proof_text::key;
use seq_calculus::SeqProof;
use std::alloc::Global;
use text_writer::{proof_is_shown, write_canon, write_proof};

/// The line of a job's form and its proof, without its line feed.
fn line(alloc: Global, job: &Canon, proof: &SeqProof) -> Result<Vec<u8>, Memory>
    ensures text { IfOk result (λ l.
        l.items ≡ written_line (record { canon = job.now; proof = proof.now })) }
    ensures written { IfOk result (λ l.
        IsWritten (record { canon = job.now; proof = proof.now })) }
{
    let _ = proof.nodes();
    let form = write_canon(alloc, job)?;
    let list = write_proof(alloc, proof)?;
    let key = key(alloc, form.as_slice())?;
    let key = str::from_utf8(key.bytes()).unwrap();
    write_line(alloc, key, form.as_slice(), list.as_slice())
}

/// Writes the line of a job, where it is proved.
fn write_job(
    alloc: Global,
    file: &mut Vec<u8>,
    job: &Canon,
    verdict: &Option<Verdict>,
) -> Result<(), Memory>
    ensures text { OnOk result (file.new.items
        ≡ file.old.items ++ file_of (proved_job job.now verdict.now)) }
    ensures written { OnOk result (AllByRecursion IsWritten (proved_job job.now verdict.now)) }
{
    if let Some(Verdict::Proved { proof, .. }) = verdict {
        let mut line = line(alloc, job, proof)?;
        file.append(&mut line)?;
        file.push(LINE_FEED)?;
    }
    Ok(())
}

/// The file of a cache with the jobs that are proved, in the order of the jobs. Where each of them can be read back, the file is read
/// back as records of the same forms whose proofs have the same trees. Want of memory is the only other answer.
pub fn write_cache(
    alloc: Global,
    jobs: &[Canon],
    verdicts: &[Option<Verdict>],
) -> Result<Vec<u8>, Memory>
    ensures text { IfOk result (λ b. b.items ≡ file_of (proved_jobs jobs.now verdicts.now)) }
    ensures read { IfOk result (λ b. AllByRecursion IsReadable (proved_jobs jobs.now verdicts.now)
        → AreReadBack (proved_jobs jobs.now verdicts.now) b.items) }
{
    proof_is_shown();
    let mut file = Vec::new(alloc);
    for (job, verdict) in jobs.iter().zip(verdicts) {
        write_job(alloc, &mut file, job, verdict)?;
    }
    Ok(file)
}

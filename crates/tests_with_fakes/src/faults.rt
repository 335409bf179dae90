//! The texts of faults that no script meets: of memory, of a source that fails, and of more tiles than a test has time for.
use crate::wanted::same;
use archive_commands::Verdict;
use area_content::ContentFault;
use feature_store::SnapshotFault;
use pm_archive::ArchiveFault;
use std::alloc::Global;
use std::fmt::Display;

/// Whether this is what a fault says.
fn says<F: Display>(alloc: Global, fault: &F, told: &str) -> bool {
    match fault.to_string(alloc) {
        Ok(said) => said.as_str() == told,
        Err(_) => false,
    }
}

#[test]
fn faults_of_publications_and_snapshots(rt: HostRuntime) {
    let many = "the tiles need more than 131,072 entries";
    let seen = [
        says(rt.alloc(), &ContentFault::TooManyTiles, many),
        says(rt.alloc(), &ContentFault::Memory, "out of memory"),
        says(rt.alloc(), &SnapshotFault::Memory, "out of memory"),
    ];
    same(&rt, &seen, &[true; 3]);
}

#[test]
fn faults_of_archives(rt: HostRuntime) {
    let read = Verdict::of(Err(ArchiveFault::Read));
    let memory = Verdict::of(Err(ArchiveFault::Memory));
    let seen = [
        says(rt.alloc(), &read, "Read"),
        says(rt.alloc(), &memory, "Memory"),
    ];
    same(&rt, &seen, &[true; 2]);
}

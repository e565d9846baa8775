// What is told on standard error.
use ebs_disk_store::OpenRefusal;
use ebs_server::ServeEnd;
use ebs_telling::Cause;
use ebs_world::FolderDisk;
use std::fs::File;
use std::io::Eprint;
use std::rt::Files;

/// Why serving ended.
pub fn cause_of<L, K, R: Files<File = File> + AllocGlobal>(
    end: &ServeEnd<L, K, FolderDisk<'_, R>>,
) -> Cause {
    match end {
        ServeEnd::Refused(_, disk) if disk.is_used() => Cause::Used,
        ServeEnd::Refused(refusal, _) => Cause::Unopened(*refusal),
        ServeEnd::Ended(_, _) => Cause::Words("the port gives no connections any more"),
        ServeEnd::Memory(_) => Cause::Unopened(OpenRefusal::Memory),
    }
}

/// Tells that the port is listened at.
pub fn tell_listening(rt: &impl Eprint, port: u16, workers: u32) {
    let _ = eprintln!(rt; "ebsd: listens at 127.0.0.1:{port} with {workers} workers");
}

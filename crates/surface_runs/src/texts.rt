// The texts of a run that are printed after its report.

ghost use Rattle.ima_top.specs.scenes.Scene.{IsForFiles, scene_of};
ghost use Rattle.ima_top.specs.trails.Trail.{IsOfRun};

use std::alloc::Global;

// ---- audit_trail

pub fn trail(
    alloc: Global,
    s: &script_text::Script,
    e: &task_core::Ended,
) -> Result<Vec<u8>, report_text::OutOfMemory>
    requires { (for_files : IsForFiles s.now)
        → IsOfRun (scene_of s.now for_files) s.now.ending e.now }
{
    audit_trail::trail(alloc, s, e)
}

// ---- kernel_read

// "Some calls accept more than they have to"
pub fn loads(
    alloc: Global,
    s: &script_text::Script,
    e: &task_core::Ended,
) -> Result<Vec<u8>, report_text::OutOfMemory> {
    kernel_read::loads(alloc, s, e)
}

//! What is to be done with the steps of a proof.
ghost use Rattle.std.specs.Prelude.{◌≡◌, ◌∷◌, ◌++◌, [], OnOk};
ghost use Rattle.text_writer.specs.Tasks.{visits};
ghost use Rattle.text_writer.specs.declared.task.Task.TheVariants.{Finish};

use core_expr::Memory;

/// What is to be done with a step.
#[derive(Clone, Copy, Drop)]
pub enum Task {
    /// Its premises are to be entered, and then the step.
    Visit(u64),
    /// The step is to be entered. Its premises are.
    Finish(u64),
}

/// Lets the step `i` wait for these premises, the first of which is next.
pub fn wait_for(tasks: &mut Vec<Task>, premises: &[u64], i: u64) -> Result<(), Memory>
    ensures { OnOk result (tasks.new.items ≡ (tasks.old.items ++ Finish i ∷ []) ++ visits premises.now) }
{
    tasks.push(Task::Finish(i))?;
    for k in (0..premises.len()).rev() {
        tasks.push(Task::Visit(premises[k]))?;
    }
    Ok(())
}

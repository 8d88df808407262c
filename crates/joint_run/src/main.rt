// One ticket from start to finish: a drive maker's margins and a plant's recording are joined under the secret label,
// and what each party could observe is printed; then the same with other recordings, compared.
#![tactic(auto)]

mod play;
mod task;
mod tell;

use play::play;

fn main(rt: HostRuntime) -> anyhow::Result<()> {
    let told = play(rt.alloc())?;
    told.print(&rt)
}

// How the trial ends before its time.
use anyhow::anyhow;

// Ends the trial unless a thing is as it should be.
pub fn hold(is_so: bool, what: &str) -> anyhow::Result<()> {
    if is_so {
        Ok(())
    } else {
        Err(anyhow!("{what}"))
    }
}

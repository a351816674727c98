//! The directives that may stand once.

ghost use Rattle.std.specs.Prelude.{◌≡◌, None, Some};
ghost use Rattle.asm_text.specs.Settings.{set_once, profile_set, slim_set, chain_set, retry_set, trap_set};

use asm_line::Fault;

/// What the directives that may stand once have said: whether `.profile` stood, and the numbers of the others that
/// did.
#[derive(Clone, Copy, Debug, PartialEq, Eq)]
pub(crate) struct Settings {
    pub(crate) profile: bool,
    pub(crate) slim: Option<u8>,
    pub(crate) chain: Option<u8>,
    pub(crate) retry: Option<u32>,
    pub(crate) trap: Option<u32>,
}

impl Settings {
    pub(crate) const NONE: Settings = Settings {
        profile: false,
        slim: None,
        chain: None,
        retry: None,
        trap: None,
    };

    pub(crate) fn with_profile(self) -> Result<Settings, Fault>
        ensures { result ≡ profile_set self }
    {
        if self.profile {
            return Err(Fault::Directive);
        }
        Ok(Settings {
            profile: true,
            ..self
        })
    }

    pub(crate) fn with_slim(self, slim: u8) -> Result<Settings, Fault>
        ensures { result ≡ slim_set self slim }
    {
        let slim = set_once(self.slim, slim)?;
        Ok(Settings { slim, ..self })
    }

    pub(crate) fn with_chain(self, chain: u8) -> Result<Settings, Fault>
        ensures { result ≡ chain_set self chain }
    {
        let chain = set_once(self.chain, chain)?;
        Ok(Settings { chain, ..self })
    }

    pub(crate) fn with_retry(self, retry: u32) -> Result<Settings, Fault>
        ensures { result ≡ retry_set self retry }
    {
        let retry = set_once(self.retry, retry)?;
        Ok(Settings { retry, ..self })
    }

    pub(crate) fn with_trap(self, trap: u32) -> Result<Settings, Fault>
        ensures { result ≡ trap_set self trap }
    {
        let trap = set_once(self.trap, trap)?;
        Ok(Settings { trap, ..self })
    }
}

/// The number of a directive, if an earlier line has not set it.
fn set_once<A: Drop>(earlier: Option<A>, number: A) -> Result<Option<A>, Fault>
    ensures { result ≡ set_once earlier number }
{
    match earlier {
        None => Ok(Some(number)),
        Some(_) => Err(Fault::Directive),
    }
}

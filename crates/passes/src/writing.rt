// What the pass of a writer allows.
ghost use Rattle.std.specs.Prelude.{◌≡◌, None};
ghost use Rattle.protocol.specs.Sites.{refused_by};
ghost use Rattle.site.specs.States.{site_of};
ghost use Rattle.passes.specs.Passes.{finish_checks, finished_by};

use crate::{Member, Refused, Writer};
use protocol::refusal::Refusal;
use site::site::Site;

impl Writer {
    // The head is a member again when no write is under way.
    pub fn finish(self, site: &Site) -> Result<Member, Refused<Writer>>
        ensures { result ≡ finished_by self.name (refused_by (finish_checks (site_of site.now)) None) }
    {
        if site.under_way.is_some() {
            return Err(Refused {
                pass: self,
                why: Refusal::WriteUnderWay,
            });
        }
        Ok(Member { name: self.name })
    }
}

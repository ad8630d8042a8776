// Make: a site of heads 1 to n, all active with the starting value.
ghost use Rattle.std.specs.Prelude.{◌≡◌, ◌+◌, ◌≤◌, true, length, is_err, None};
ghost use Rattle.logs.specs.Meanings.{Meaning};
ghost use Rattle.acts.specs.Making.{setup_of};
ghost use Rattle.site.specs.Makes.{Makes};
ghost use Rattle.site.specs.States.{site_of};

use crate::site::Site;
use acts::making::check_setup;
use heads::places::fill;
use kinds::value::Value;
use mailing::passes::take_out_all;
use protocol::refusal::Refusal;
use tables::head::Head;
use tables::mail::MailPlace;

impl Site {
    // A site over these tables, with an empty mail.
    pub fn make<V: Value>(
        heads: &mut [Head<V>],
        mail: &mut [MailPlace<V>],
        delay: u32,
        swap_limit: u32,
        start: V,
    ) -> Result<Site, Refusal>
        ensures made { (m : Meaning V) → Makes V.Value.lawful (setup_of (length heads.old) (length mail.old) delay swap_limit start m) result heads.new mail.new }
        ensures kept { is_err result ≡ true → (heads.new ≡ heads.old) × (mail.new ≡ mail.old) }
    {
        let size = heads.len();
        check_setup(size, mail.len(), delay, swap_limit, start)?;
        fill(heads, start);
        take_out_all(mail);
        Ok(Site::new(size, delay, swap_limit))
    }

    // The numbers of a new site.
    fn new(size: usize, delay: u32, swap_limit: u32) -> Site
        requires { size ≤ 64 }
        ensures { site_of result ≡ record { size = size; delay = delay; swap_limit = swap_limit; time = 0; swaps = 0; next_name = size + 1; under_way = None } }
    {
        // The cast loses nothing, which is proved; a conversion would have an error that cannot come.
        let next_name = size as u32 + 1;
        Site {
            size,
            delay,
            swap_limit,
            time: 0,
            swaps: 0,
            next_name,
            under_way: None,
        }
    }
}

// A verdict on a certificate as the message that is printed: it begins with `no draw` for those verdicts only that imply that there is none.
#![tactic(auto)]

ghost use Rattle.std.specs.Prelude.{◌≡◌};
ghost use Rattle.report.specs.Messages.{message, Counted};
ghost use Rattle.certificate.specs.NoDraw.{is_no};
ghost use Rattle.verdict.specs.Verdict.{verdict_text, printed, says_no};

use certificate::Verdict;
use report::Message;

pub fn told(v: Verdict) -> Message
    ensures value { result ≡ message (verdict_text v) }
    ensures counted { Counted result }
    ensures result_value { says_no (printed result) ≡ is_no v }
{
    match v {
        Verdict::Refused(refusal, line) => report::refused_at(refusal, line),
        Verdict::SettledOut => report::no_draw(false),
        Verdict::Certified => report::no_draw(true),
        Verdict::NotCertified(reason, line) => report::not_certified(reason, line),
    }
}

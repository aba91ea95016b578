//! A device that gives its master the last mail once more (IEC 61158-4-12, sync manager, repeat request).

ghost use Rattle.std.specs.Prelude.{◌≡◌};
ghost use Rattle.ec_applications.specs.Repeats.{given_again, is_asked_again, repeated};

use ec_app::roles::ANSWER_MAILBOX;
use ec_esc::Controller;
use ec_regs::AlState;

/// Gives the master of a device the last mail once more, where it asks for it (IEC 61158-4-12, sync manager,
/// repeat request): where bit 1 of the activate byte of the mailbox that it reads is not as bit 1 of the PDI
/// byte. In Init, and where the mailbox is not there, no mail is given: it is told alone that this was done.
/// A plain slave stays as it is.
pub(crate) fn repeat_if_asked(controller: &mut Controller)
    ensures { controller.new ≡ repeated controller.old }
{
    if is_asked_again(controller) {
        give_again(controller);
    }
}

/// Is it a device whose master asks for the last mail once more?
fn is_asked_again(controller: &Controller) -> bool
    ensures { result ≡ is_asked_again controller.now }
{
    controller.has_sii() && controller.syncman(ANSWER_MAILBOX).asks_again()
}

/// Gives the last mail once more, if one can be given, and tells that this was done.
fn give_again(controller: &mut Controller)
    ensures { controller.new ≡ given_again controller.old }
{
    if controller.al().0.state == AlState::Init {
        controller.tell_repeated(ANSWER_MAILBOX);
        return;
    }
    if controller.repeat_mail(ANSWER_MAILBOX).is_err() {
        controller.tell_repeated(ANSWER_MAILBOX);
    }
}

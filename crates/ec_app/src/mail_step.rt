//! The mail step of a slave: it takes a mail of the master, does what it asks for, and answers (IEC
//! 61158-6-12, CoE, SDO services).

ghost use Rattle.std.specs.Prelude.{◌≡◌, ◌≤◌, ◌⊎◌, IfSome, IsSome, Some, None, true};
ghost use Rattle.ec_app.specs.MailStep.{named, mail_answer, reply};

use crate::abort_code::AbortCode;
use crate::mail::{Mail, REQUEST, RESPONSE};
use crate::objects::Objects;
use crate::roles::{ANSWER_MAILBOX, REQUEST_MAILBOX, is_answer_mailbox};
use crate::sdo::Sdo;
use crate::slave::Slave;
use crate::value::Value;
use ec_regs::AlState;

/// What a slave answers to a good mail.
#[derive(Clone, Copy, PartialEq, Eq, Debug)]
enum MailAnswer {
    /// Nothing.
    Nothing,
    /// An abort for this reason; no object changes.
    Aborted(AbortCode),
    /// The object's value; no object changes.
    Uploaded(Value),
    /// The object has taken this value.
    Downloaded(Value),
}

/// What a slave with these objects answers to a good mail.
#[tactic(auto, unfolding(crate::specs::MailStep::mail_answer))]
fn mail_answer(mail: &Mail, objects: &Objects) -> MailAnswer
    ensures value { result ≡ mail_answer mail.now objects.now }
    ensures there { (value : Value) → result ≡ MailAnswer.Downloaded value
        → IsSome (named mail.now.sdo objects.now) }
{
    if mail.service == RESPONSE || matches!(mail.sdo, Sdo::Abort { .. }) {
        return MailAnswer::Nothing;
    }
    if !matches!(mail.sdo, Sdo::Upload { .. } | Sdo::Download { .. }) {
        return MailAnswer::Aborted(AbortCode::UnknownCommand);
    }
    if !objects.has_index(mail.sdo.index()) {
        return MailAnswer::Aborted(AbortCode::NoObject);
    }
    let Some((rights, held)) = objects.get(mail.sdo.index(), mail.sdo.sub()) else {
        return MailAnswer::Aborted(AbortCode::NoSubindex);
    };
    match mail.sdo {
        Sdo::Download { value, .. } => {
            if !rights.may_write() {
                MailAnswer::Aborted(AbortCode::WriteOfReadOnly)
            } else if value.size() != held.size() {
                MailAnswer::Aborted(AbortCode::WrongLength)
            } else {
                MailAnswer::Downloaded(value)
            }
        }
        _ if rights.may_read() => MailAnswer::Uploaded(held),
        _ => MailAnswer::Aborted(AbortCode::ReadOfWriteOnly),
    }
}

/// The mail that carries an answer to a mail, if one does. It has the counter of that mail; what else it has
/// of its headers is not sent.
fn reply(mail: &Mail, answer: MailAnswer) -> Option<Mail>
    ensures value { result ≡ reply mail.now answer }
    ensures counter { IfSome result (λ m. m.counter ≡ mail.now.counter) }
    ensures service { IfSome result (λ m. (m.service ≡ REQUEST) ⊎ (m.service ≡ RESPONSE)) }
{
    let index = mail.sdo.index();
    let sub = mail.sdo.sub();
    let (service, sdo) = match answer {
        MailAnswer::Nothing => return None,
        MailAnswer::Aborted(reason) => {
            let code = reason.code();
            (REQUEST, Sdo::Abort { index, sub, code })
        }
        MailAnswer::Uploaded(value) => (RESPONSE, Sdo::UploadAnswer { index, sub, value }),
        MailAnswer::Downloaded(_) => (RESPONSE, Sdo::DownloadAnswer { index, sub }),
    };
    Some(Mail {
        service,
        sdo,
        ..*mail
    })
}

impl Slave {
    ghost use Rattle.ec_app.specs.MailStep.{can_answer, application_after, with_reply, after_mail};
    ghost use Rattle.ec_app.specs.MailStep.{after_bytes, is_kept, mail_step};

    /// May a mail be answered: has the slave's state mails, and is the mailbox of answers there and empty?
    fn can_answer(&self) -> bool
        ensures { result ≡ can_answer self.now.controller }
    {
        let answers = self.controller.syncman(ANSWER_MAILBOX);
        self.state() != AlState::Init && is_answer_mailbox(&answers) && !answers.is_full()
    }

    /// Keeps the counter of a good mail, and gives an object the value that the answer says it has taken.
    fn keep(&mut self, mail: &Mail, answer: MailAnswer)
        requires { (value : Value) → answer ≡ MailAnswer.Downloaded value
            → IsSome (named mail.now.sdo self.old.application.objects) }
        ensures { self.new
            ≡ record self.old { application = application_after mail.now answer self.old.application } }
    {
        self.kept = Some(mail.counter);
        if let MailAnswer::Downloaded(value) = answer {
            self.objects.set(mail.sdo.index(), mail.sdo.sub(), value);
        }
    }

    /// Puts a mail into the mailbox of answers.
    fn put(&mut self, mail: &Mail)
        requires counter { mail.now.counter ≤ 7 }
        requires service { (mail.now.service ≡ REQUEST) ⊎ (mail.now.service ≡ RESPONSE) }
        requires room { can_answer self.old.controller ≡ true }
        ensures { self.new
            ≡ record self.old { controller = with_reply self.old.controller (Some mail.now) } }
    {
        self.controller
            .put_mail(ANSWER_MAILBOX, &mail.write())
            .unwrap();
    }

    /// Does what a good mail asks for, and answers it.
    fn answer(&mut self, mail: &Mail)
        requires counter { mail.now.counter ≤ 7 }
        requires room { can_answer self.old.controller ≡ true }
        ensures { self.new ≡ after_mail mail.now self.old }
    {
        let answer = mail_answer(mail, &self.objects);
        self.keep(mail, answer);
        if let Some(reply) = reply(mail, answer) {
            self.put(&reply);
        }
    }

    /// Is it the counter of the last good mail? A mail whose counter is 0 repeats none.
    fn is_kept(&self, counter: u8) -> bool
        ensures { result ≡ is_kept self.now.application.kept counter }
    {
        self.kept == Some(counter) && counter != 0
    }

    /// Takes these bytes of a mailbox: drops them where they are no mail, or the last good mail once more.
    fn take(&mut self, bytes: &[u8])
        requires { can_answer self.old.controller ≡ true }
        ensures { self.new ≡ after_bytes bytes.now self.old }
    {
        match Mail::taken(self.controller.has_sii(), bytes) {
            Some(mail) if !self.is_kept(mail.counter) => self.answer(&mail),
            _ => {}
        }
    }

    /// Takes a mail of the master, where there is one and an answer can be put, and answers it.
    #[tactic(auto, unfolding(crate::specs::MailStep::mail_step))]
    pub(crate) fn mail_step(&mut self)
        ensures { self.new ≡ mail_step self.old }
    {
        if !self.can_answer() {
            return;
        }
        if let Ok(bytes) = self.controller.take_mail(REQUEST_MAILBOX) {
            self.take(&bytes);
        }
    }
}

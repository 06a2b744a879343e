// What a walk of code over lent records cites: laws for any list of references and any plain types. There is no code here.
#![tactic(auto)]
